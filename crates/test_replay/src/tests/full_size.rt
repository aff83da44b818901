// The greatest sizes: the last place, slot and method, the deepest stack, and the most bytes that wait to be written.
use super::{is_answered, sides, split_steps};
use replay::device::{FromReader, IntoWriter};
use replay::stream::replay;
use std::alloc::Global;
use std::io::{self, Write};
use std::process::Abort;
use std::test::Fail;
use test_texts::devices::Drip;
use test_texts::parts::text_of;
use test_texts::rows::add_rows;

// 64 threads, and 1024 codes: four for each of 256 methods, of which the last is in use.
fn full_system(rt: &impl Abort, alloc: Global) -> String {
    let mut steps = String::from_str(alloc, "size 64 1024 256 => ok\n").expect(rt, "memory");
    for place in 0..64u64 {
        writeln!(steps, "start => thread {} place {place}", place + 1).expect(rt, "memory");
    }
    for serial in 1..1025u64 {
        writeln!(steps, "install {} => code {serial}", (serial - 1) % 256).expect(rt, "memory");
        if serial <= 768 {
            writeln!(steps, "invalidate {serial} => ok").expect(rt, "memory");
        }
    }
    steps
}

// The last place, slot and method of that system. Places are looked at from the first on; only the thread of the last place has published.
const LAST_PLACE: &str = "\
start => refused PlacesFull; install 255 => refused TableFull; install 256 => refused NoSuchMethod
invalidate 1025 => refused Unknown; invalidate 769 => ok; install 0 => refused TableFull; resolve 255 => code 1024
begin 63 => ok; end 63 => ok; wake 63 => ok; cross 63 => go; wake 64 => refused NoSuchPlace
enter 63 256 => refused NoSuchMethod; enter 63 255 1024 => entered; stack 63 => stack 255:1024
begin 63 => ok; change 63 => change 1024 +1; change 63 => change none; end 63 => ok
count 1024 => count 1; invalidate 1024 => ok
0 to 62 | weigh 1024 => not looked #; look 1024 # => clear
look 1024 63 => late; look 1024 64 => refused NoSuchPlace; weigh 1024 => not looked 63; round => ok
begin 63 => ok; end 63 => ok
look 1024 63 => clear; weigh 1024 => used 1; leave 63 => go
begin 63 => ok; change 63 => change 1024 -1; end 63 => ok
weigh 1024 => retired; install 255 => refused TableFull; free 1024 => ok; install 255 => code 1025
enter 63 255 1024 => wrong method; enter 63 255 1025 => entered; stack 63 => stack 255:1025
ask top 64 => asked 1; open => open 1 handshake; tell 64 => told
edge 63 => stop 1; take 63 => ok; finish 63 => refused Unpublished";

#[test]
fn the_last_place_slot_and_method_are_answered(rt: HostRuntime) -> Result<(), Fail> {
    let mut steps = full_system(&rt, rt.alloc());
    add_rows(rt.alloc(), &mut steps, LAST_PLACE)?;
    let (input, output) = split_steps(&rt, rt.alloc(), &steps).expect(&rt, "memory");
    assert!(rt; is_answered(rt.alloc(), &input, &output));
    Ok(())
}

const FULL_STACK: &str = "\
size 1 4 2 => ok
one thread runs
install 0 => code 1; invalidate 1 => ok; install 1 => code 2
1 to 256 | enter 0 0 => entered
enter 0 0 => refused DepthFull; enter 0 0 1 => refused DepthFull; enter 0 0 2 => refused DepthFull
enter 0 0 3 => refused Unknown; leave 0 => go; enter 0 0 1 => wrong method; enter 0 0 2 => refused NotOf
enter 0 1 2 => entered";

#[test]
fn a_full_stack_is_named_before_the_code(rt: HostRuntime) -> Result<(), Fail> {
    let (input, output) = sides(&rt, rt.alloc(), FULL_STACK);
    assert!(rt; is_answered(rt.alloc(), &input, &output));
    Ok(())
}

// A sink that takes all bytes, and keeps how many there were: in all, and at most in one call.
#[derive(Drop)]
struct Gauge {
    all: usize,
    most: usize,
}

impl Write for Gauge {
    fn write(&mut self, buf: &[u8]) -> io::Result<usize> {
        self.all = self.all.saturating_add(buf.len());
        self.most = self.most.max(buf.len());
        Ok(buf.len())
    }

    fn flush(&mut self) -> io::Result<()> {
        Ok(())
    }
}

const DEEP_STACK: &str = "\
size 1 4 2 => ok
one thread runs
1 to 256 | enter 0 0 => entered";

// The answers to one block of lines are 7 million bytes; what waits is written once it is 65,536 bytes or more.
#[test]
fn what_waits_stays_below_a_bound(rt: HostRuntime) -> Result<(), Fail> {
    let (mut input, output) = sides(&rt, rt.alloc(), DEEP_STACK);
    input.extend_from_slice(&text_of(rt.alloc(), "7000*stack 0\n")?)?;
    let mut gauge = Gauge { all: 0, most: 0 };
    let outcome = replay(
        rt.alloc(),
        &mut FromReader::new(Drip::new(&input, 1_000_000, 0)),
        &mut IntoWriter::new(&mut gauge),
    );
    assert!(rt; outcome.is_ok());
    let answer = b"stack\n".len() + 256 * b" 0:i".len();
    assert!(rt; gauge.all == output.len() + 7000 * answer);
    assert!(rt; gauge.most < 65_536 + answer);
    Ok(())
}
