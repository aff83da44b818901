// Tests of `operations`: requests that wait.
use super::{Player, joined, number_at, play, told};
use operations::queue::{Queue, QueueFault};
use operations::{Ask, Kind, Request, Targets};
use std::alloc::Global;
use std::process::Abort;
use std::test::Fail;

// A queue, and the names of the next handshake.
#[derive(Drop)]
struct Asking {
    queue: Queue<u64>,
    names: Vec<u64>,
}

impl Player for Asking {
    fn answer<R: Abort>(&mut self, rt: &R, alloc: Global, call: &str, numbers: &[u64]) -> String {
        match call {
            "names" => {
                self.names = Vec::from_slice(alloc, numbers).expect(rt, "no memory");
                told(rt, alloc, ())
            }
            "name" => told(rt, alloc, add_name(rt, &mut self.names, numbers)),
            "handshake" => {
                let request = handshake(rt, alloc, &self.names);
                pushed(rt, alloc, &mut self.queue, request, numbers)
            }
            "census" => pushed(rt, alloc, &mut self.queue, Request::Census, numbers),
            "pop" => popped(rt, alloc, &mut self.queue),
            "refusal" => {
                let request = handshake(rt, alloc, &self.names);
                told(rt, alloc, self.queue.refusal(&request))
            }
            "copy_of_census" => copied(rt, alloc, &Request::Census),
            "has_targets" | "are_targets" | "is_target" | "copy" => {
                told_of_request(rt, alloc, &handshake(rt, alloc, &self.names), call, numbers)
            }
            _ => told_of_queue(rt, alloc, &self.queue, call),
        }
    }
}

fn add_name(rt: &impl Abort, names: &mut Vec<u64>, numbers: &[u64]) {
    names
        .push(number_at(rt, numbers, 0))
        .expect(rt, "no memory");
}

fn handshake(rt: &impl Abort, alloc: Global, names: &[u64]) -> Request {
    let names = Vec::from_slice(alloc, names).expect(rt, "no memory");
    Request::Handshake {
        targets: Targets::from_vec(names),
        ask: Ask::Top,
    }
}

// The question of a handshake, and its targets.
fn asked(rt: &impl Abort, alloc: Global, request: Request) -> String {
    match request {
        Request::Handshake { targets, ask } => told(rt, alloc, (ask, targets.into_vec())),
        Request::Census => told(rt, alloc, Kind::Census),
    }
}

// Pushes the request under a number, with a load. A refused request is given back with its load.
fn pushed(
    rt: &impl Abort,
    alloc: Global,
    queue: &mut Queue<u64>,
    request: Request,
    numbers: &[u64],
) -> String {
    let number = number_at(rt, numbers, 0);
    let load = number_at(rt, numbers, 1);
    match queue.push(number, request, load) {
        Ok(()) => told(rt, alloc, ()),
        Err(back) => {
            let fault = told(rt, alloc, (back.fault, back.load));
            joined(rt, fault, asked(rt, alloc, back.request))
        }
    }
}

fn popped(rt: &impl Abort, alloc: Global, queue: &mut Queue<u64>) -> String {
    match queue.pop() {
        Some(oldest) => {
            let number = told(rt, alloc, (oldest.number, oldest.load));
            joined(rt, number, asked(rt, alloc, oldest.request))
        }
        None => told(rt, alloc, ()),
    }
}

fn copied(rt: &impl Abort, alloc: Global, request: &Request) -> String {
    asked(rt, alloc, request.copied(alloc).expect(rt, "no memory"))
}

fn told_of_request(
    rt: &impl Abort,
    alloc: Global,
    request: &Request,
    call: &str,
    numbers: &[u64],
) -> String {
    match call {
        "has_targets" => told(rt, alloc, request.has_targets()),
        "are_targets" => told(rt, alloc, request.are_targets()),
        "is_target" => told(rt, alloc, request.is_target(number_at(rt, numbers, 0))),
        _ => copied(rt, alloc, request),
    }
}

fn told_of_queue(rt: &impl Abort, alloc: Global, queue: &Queue<u64>, call: &str) -> String {
    match call {
        "front" => oldest(rt, alloc, queue),
        "len" => told(rt, alloc, queue.len()),
        "empty" => told(rt, alloc, queue.is_empty()),
        "full" => told(rt, alloc, queue.is_full()),
        _ => panic!(rt; "no such call"),
    }
}

fn oldest(rt: &impl Abort, alloc: Global, queue: &Queue<u64>) -> String {
    match queue.front() {
        Some(oldest) => told(rt, alloc, (oldest.number, oldest.request.kind())),
        None => told(rt, alloc, ()),
    }
}

fn play_on_queue(rt: &impl Abort, alloc: Global, rows: &str) {
    let mut asking = Asking {
        queue: Queue::new(alloc),
        names: Vec::new(alloc),
    };
    play(rt, alloc, &mut asking, rows);
}

#[test]
fn sixty_four_wait_and_leave_in_order(rt: HostRuntime) {
    // A full queue is reported before each other cause.
    let rows = "\
empty => true
1 to 64 | full => false; names # => (); handshake # 7# => ()
full => true; empty => false; len => 64; names => (); refusal => Some(QueueFull)
handshake 65 8 => (QueueFull, 8) (Top, [])
census 65 9 => (QueueFull, 9) Census
front => (1, Handshake); len => 64
1 to 64 | pop => (#, 7#) (Top, [#])
pop => (); front => (); census 65 10 => (); front => (65, Census)";
    play_on_queue(&rt, rt.alloc(), rows);
}

#[test]
fn bad_targets_come_back(rt: HostRuntime) {
    let rows = "\
names => (); copy => (Top, []); has_targets => false; refusal => Some(NoTargets)
handshake 1 4 => (NoTargets, 4) (Top, [])
names 7 7 => (); are_targets => false; refusal => Some(BadTargets)
handshake 1 4 => (BadTargets, 4) (Top, [7, 7])
names 3 1 2 => (); copy => (Top, [3, 1, 2]); copy_of_census => Census
names 7 8 9 7 => (); refusal => Some(BadTargets); is_target 9 => true; is_target 10 => false
names => ()
1 to 64 | name # => (); is_target # => true
copy => (Top, [1, 2, 3, 4, 5, 6, 7, 8, 9, 10, 11, 12, 13, 14, 15, 16, 17, 18, 19, 20, 21, 22, 23, 24, 25, 26, 27, 28, 29, 30, 31, 32, 33, 34, 35, 36, 37, 38, 39, 40, 41, 42, 43, 44, 45, 46, 47, 48, 49, 50, 51, 52, 53, 54, 55, 56, 57, 58, 59, 60, 61, 62, 63, 64])
has_targets => true; are_targets => true; refusal => None; handshake 1 4 => (); len => 1
name 65 => (); are_targets => false; refusal => Some(BadTargets); len => 1";
    play_on_queue(&rt, rt.alloc(), rows);
}

// It passes whichever growth of memory is refused: a request that isn't queued is given back, and can be queued again.
#[test]
fn want_of_memory_hands_back(rt: HostRuntime) -> Result<(), Fail> {
    let mut queue: Queue<u64> = Queue::new(rt.alloc());
    let mut refused = None;
    for number in 1..20u64 {
        let before = queue.len();
        if let Err(back) = queue.push(number, Request::Census, number) {
            assert!(rt; back.fault == QueueFault::NoMemory);
            assert!(rt; back.load == number);
            assert!(rt; queue.len() == before);
            assert!(rt; queue.push(number, back.request, back.load).is_ok());
            refused = Some(number);
        }
    }
    assert!(rt; queue.len() == 19);
    match refused {
        None => println!(rt; "no growth was refused")?,
        Some(number) => println!(rt; "request {number} was refused")?,
    }
    Ok(())
}
