// Memory that is refused. With each growth refused in turn, these tests show that a text is answered as with ample memory or with NoMemory,
// and that a run has made its first marks, and makes the others once memory is available again.
use super::scripts::line_of;
use super::{LOOP_OF_CALLS, code_of, expect};
use interp::{Mark, Outcome, Runner, Tape};
use std::alloc::Global;
use std::process::Abort;
use std::test::Fail;

const BAD_SHAPE: &str = r#"{"methods":[[],["tick",{"loop":2,"body":["tock"]}]]}"#;

const BAD_CALL: &str = r#"{"methods":[[],[{"loop":2,"body":[{"call":2}]}]]}"#;

// 1 if memory was refused. Else 0, and the result of the text is `wanted`.
fn refusals(rt: &impl Abort, alloc: Global, text: &str, wanted: &str) -> u8 {
    let Ok(line) = line_of(alloc, text.as_bytes()) else {
        return 1;
    };
    if line.as_str() == "no memory" {
        return 1;
    }
    expect(rt, line.as_str(), wanted);
    0
}

#[test]
fn refused_memory_is_told(rt: HostRuntime) -> Result<(), Fail> {
    let alloc = rt.alloc();
    let first = refusals(&rt, alloc, LOOP_OF_CALLS, "ok 2");
    let second = refusals(&rt, alloc, BAD_SHAPE, "BadShape at 1.1.0");
    let third = refusals(&rt, alloc, BAD_CALL, "BadCall at 1.0.0");
    match (first, second, third) {
        (0, 0, 0) => println!(rt; "no growth was refused")?,
        _ => println!(rt; "refused in the texts {first} {second} {third}")?,
    }
    Ok(())
}

const TWO_TURNS: &str = r#"{"methods":[[{"loop":2,"body":[{"call":1}]}],["tick"]]}"#;

const MARKS_OF_TWO_TURNS: [Mark; 10] = [
    Mark::In(0),
    Mark::In(1),
    Mark::Tick,
    Mark::Out(1),
    Mark::Edge,
    Mark::In(1),
    Mark::Tick,
    Mark::Out(1),
    Mark::Edge,
    Mark::Out(0),
];

// How many marks were made when memory was refused; none if it wasn't refused, or was refused before the run.
fn refused_after(rt: &impl Abort, runner: &mut Runner<'_>, tape: &mut Tape) -> Option<u64> {
    let refused = match runner.run(tape, 100) {
        Outcome::Finished => None,
        Outcome::Refused(_) => Some(runner.made()),
        _ => panic!(rt; "neither finished nor refused"),
    };
    assert!(rt; MARKS_OF_TWO_TURNS.starts_with(&tape.marks));
    assert!(rt; runner.made() == tape.marks.len() as u64);
    refused
}

// The result of that run. Once memory is available again, the run makes all of its marks.
fn refused_and_finished(rt: &impl Abort, alloc: Global, runner: &mut Runner<'_>) -> Option<u64> {
    let mut tape = Tape::new(alloc);
    let refused = refused_after(rt, runner, &mut tape);
    assert!(rt; matches!(runner.run(&mut tape, 100), Outcome::Finished));
    assert!(rt; tape.marks.as_slice() == MARKS_OF_TWO_TURNS.as_slice());
    refused
}

// None if memory was refused before the run.
fn run_two_turns(rt: &impl Abort, alloc: Global) -> Option<Option<u64>> {
    let code = code_of(alloc, TWO_TURNS.as_bytes()).ok()?;
    let mut runner = Runner::new(alloc, &code).ok()?;
    Some(refused_and_finished(rt, alloc, &mut runner))
}

#[test]
fn refused_memory_leaves_a_beginning(rt: HostRuntime) -> Result<(), Fail> {
    match run_two_turns(&rt, rt.alloc()) {
        None => println!(rt; "refused before the run")?,
        Some(None) => println!(rt; "no growth was refused")?,
        Some(Some(marks)) => println!(rt; "refused after {marks} marks")?,
    }
    Ok(())
}
