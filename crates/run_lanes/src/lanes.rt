// All lanes of a run, line by line, and the position of each line's mark.
ghost use Rattle.std.specs.Prelude.{◌≡◌, ℕ, true, false, None, IfOk};
ghost use Rattle.system.specs.declared.answers.Answer.TheVariants.{Stop, Told};
ghost use Rattle.run_lanes.specs.declared.subject.Subject.TheVariants.{Tell};
ghost use Rattle.run_lanes.specs.Requests.{lane_in};
ghost use Rattle.run_lanes.specs.Lanes.{served_by, serves, is_stop, is_accepted};

use crate::codes::Codes;
use crate::looks::{LINES, Lane};
use crate::painted::Painted;
use crate::requests::Operations;
use crate::subject::{Subject, Touch};
use crate::threads::Threads;
use operations::Request;
use replay::engine::Reply;
use std::alloc::{AllocError, Global};
use system::answers::Answer;
use system::events::Act;

/// The sizes of the system.
#[derive(Clone, Copy, Drop)]
pub struct Sizes {
    pub places: u64,
    pub slots: u64,
    pub methods: u64,
}

/// Where a mark is drawn, and to which lane a thin line leads from it.
#[derive(Clone, Copy, Drop)]
pub struct Spot {
    pub lane: Lane,
    pub tie: Option<Lane>,
    /// The thread's number of frames, if the line changed it.
    pub depth: Option<u32>,
}

/// The lanes of a run.
#[derive(Drop)]
pub struct Lanes {
    pub painted: Painted,
    /// None before the first accepted size.
    pub sizes: Option<Sizes>,
    threads: Threads,
    operations: Operations,
    codes: Codes,
}

// A mark without a thin line.
fn on(lane: Lane) -> Spot
    ensures { result ≡ record { lane = lane; tie = None; depth = None } }
{
    tied(lane, None)
}

fn tied(lane: Lane, tie: Option<Lane>) -> Spot
    ensures { result ≡ record { lane = lane; tie = tie; depth = None } }
{
    Spot {
        lane,
        tie,
        depth: None,
    }
}

fn or_lines(lane: Option<Lane>) -> Lane {
    match lane {
        Some(lane) => lane,
        None => LINES,
    }
}

impl Lanes {
    /// The lanes before the first line. Painting starts with the line of number `first`.
    pub fn new(alloc: Global, first: u64) -> Lanes {
        Lanes {
            painted: Painted::new(alloc, first),
            sizes: None,
            threads: Threads::new(alloc),
            operations: Operations::new(alloc),
            codes: Codes::new(alloc),
        }
    }

    /// Ends the painting before this line.
    pub fn finish(&mut self, at: u64) -> Result<(), AllocError> {
        self.threads.finish(&mut self.painted, at)?;
        self.operations.finish(&mut self.painted, at)?;
        self.codes.finish(&mut self.painted, at)
    }

    /// Updates the lanes for the line of this number. Answers where its mark goes.
    pub fn follow(&mut self, subject: Subject, reply: &Reply, at: u64) -> Result<Spot, AllocError>
        ensures untouched { is_accepted reply.now ≡ false → self.new ≡ self.old }
        ensures untied { is_accepted reply.now ≡ false
            → IfOk result (λ spot. (spot.tie ≡ None) × (spot.depth ≡ None)) }
    {
        match reply {
            Reply::BadLine | Reply::BadSize => Ok(on(LINES)),
            Reply::Answered(Answer::Refused(_)) => Ok(on(self.lane_of(&subject))),
            Reply::Answered(answer) => self.accepted(subject, answer, at),
        }
    }

    // The lane of the line's subject, if it has one yet.
    fn lane_of(&self, subject: &Subject) -> Lane {
        or_lines(match subject {
            Subject::Place(place, _) => self.threads.lane(*place),
            Subject::Code(serial, _) => self.codes.lane(*serial),
            Subject::Resolve(method) => self.codes.lane_of(*method),
            Subject::Operate => self.operations.oldest(),
            Subject::Close(number) => self.operations.chosen(*number),
            Subject::Tell(name) => self.lane_of_target(*name),
            _ => None,
        })
    }

    // The lane of the oldest open operation that lists a thread, or else the lane of the thread.
    fn lane_of_target(&self, name: u64) -> Option<Lane> {
        match self.operations.listing(name) {
            Some(lane) => Some(lane),
            None => self.threads.lane_of(name),
        }
    }

    fn accepted(&mut self, subject: Subject, answer: &Answer, at: u64) -> Result<Spot, AllocError> {
        match subject {
            Subject::Place(place, act) => self.at_place(place, act, answer, at),
            Subject::Code(serial, touch) => self.on_code(serial, touch, answer, at),
            Subject::Install(method) => self.install(method, answer, at),
            Subject::Ask(request) => self.ask(request, answer, at),
            Subject::Size(places, slots, methods) => {
                self.sizes = Some(Sizes {
                    places,
                    slots,
                    methods,
                });
                Ok(on(LINES))
            }
            _ => self.on_whole(&subject, answer, at),
        }
    }

    fn at_place(
        &mut self,
        place: usize,
        act: Act,
        answer: &Answer,
        at: u64,
    ) -> Result<Spot, AllocError>
        ensures stop { (number : ℕ) → answer.now ≡ Stop number
            → IfOk result (λ spot. spot.tie ≡ lane_in self.old.operations.rows number) }
        ensures served { serves act ≡ true → is_stop answer.now ≡ false
            → IfOk result
            (λ spot. spot.tie ≡ served_by self.old.threads self.old.operations place act) }
    {
        let tie = self.tie_of(place, act, answer);
        let before = self.threads.depth(place);
        self.threads
            .follow(&mut self.painted, place, act, answer, at)?;
        let after = self.threads.depth(place);
        Ok(Spot {
            lane: or_lines(self.threads.lane(place)),
            tie,
            depth: if before == after { None } else { Some(after) },
        })
    }

    // The lane of the operation that is served, or of the code that is changed or entered.
    fn tie_of(&mut self, place: usize, act: Act, answer: &Answer) -> Option<Lane>
        ensures stop { (number : ℕ) → answer.now ≡ Stop number
            → result ≡ lane_in self.old.operations.rows number }
        ensures served { serves act ≡ true → is_stop answer.now ≡ false
            → result ≡ served_by self.old.threads self.old.operations place act }
    {
        match (act, answer) {
            (_, Answer::Stop(number)) => self.operations.lane_of(*number),
            (Act::Change, Answer::Changed(serial, _)) => self.codes.lane(*serial),
            (Act::Enter(_, Some(serial)), _) => self.codes.lane(serial),
            (Act::Finish, _) => {
                let name = self.threads.name(place)?;
                self.operations.finish_of(place, name)
            }
            (Act::Clear, _) => {
                let name = self.threads.name(place)?;
                self.operations.clear_of(place, name)
            }
            (Act::Hold, _) => self.operations.next(place, self.threads.name(place)?),
            _ => None,
        }
    }

    fn on_code(
        &mut self,
        serial: u64,
        touch: Touch,
        answer: &Answer,
        at: u64,
    ) -> Result<Spot, AllocError> {
        let lane = or_lines(self.codes.lane(serial));
        self.codes
            .follow(&mut self.painted, serial, touch, answer, at)?;
        let tie = match (touch, answer) {
            (Touch::Look(place), _) => self.threads.lane(place),
            (_, Answer::NotLooked(place)) => self.threads.lane(*place),
            _ => None,
        };
        Ok(tied(lane, tie))
    }

    fn install(&mut self, method: u64, answer: &Answer, at: u64) -> Result<Spot, AllocError> {
        let Answer::Code(serial) = answer else {
            return Ok(on(LINES));
        };
        let replaced = self.codes.lane_of(method);
        let lane = self.codes.install(&mut self.painted, method, *serial, at)?;
        Ok(tied(lane, replaced))
    }

    fn ask(&mut self, request: Request, answer: &Answer, at: u64) -> Result<Spot, AllocError> {
        let Answer::Asked(number) = answer else {
            return Ok(on(LINES));
        };
        let lane = self
            .operations
            .ask(&mut self.painted, *number, request, at)?;
        Ok(on(lane))
    }

    fn on_whole(
        &mut self,
        subject: &Subject,
        answer: &Answer,
        at: u64,
    ) -> Result<Spot, AllocError> {
        match answer {
            Answer::Thread(name, place) => {
                let lane = self.threads.start(&mut self.painted, *name, *place, at)?;
                self.operations.start(*place)?;
                Ok(on(lane))
            }
            Answer::Opened(number, kind) => {
                let newest = self.threads.newest();
                self.operations
                    .open(&mut self.painted, *number, *kind, newest, at)?;
                Ok(on(or_lines(self.operations.lane_of(*number))))
            }
            Answer::Closed(number) => {
                let lane = or_lines(self.operations.lane_of(*number));
                self.operations.close(&mut self.painted, *number, at)?;
                Ok(on(lane))
            }
            _ => self.told(subject, answer),
        }
    }

    // A Tell arms the poll of the thread with this name. Answers the lane of the operation.
    fn tell(&mut self, name: u64) -> Option<Lane>
        ensures { self.new.threads ≡ self.old.threads }
    {
        let place = self.threads.place_of(name)?;
        self.operations.tell(place, name)
    }

    // The spot of a Tell, which arms a thread's poll or changes nothing, or of a line that changes no lane.
    fn told(&mut self, subject: &Subject, answer: &Answer) -> Result<Spot, AllocError>
        ensures told { (name : ℕ) → subject.now ≡ Tell name → answer.now ≡ Told
            → IfOk result (λ spot. spot.tie ≡ lane_in self.old.threads.threads name) }
    {
        match (subject, answer) {
            (Subject::Tell(name), Answer::Told) => {
                let lane = or_lines(self.tell(*name));
                Ok(tied(lane, self.threads.lane_of(*name)))
            }
            (Subject::Tell(name), _) => Ok(on(or_lines(self.operations.listing(*name)))),
            _ => Ok(on(self.lane_of(subject))),
        }
    }
}
