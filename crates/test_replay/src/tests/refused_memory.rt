// Memory that is refused. With each growth refused in turn, these tests show that the bytes written are the answers before the refused
// line.
use super::{are_answers, newlines, replayed, run_named, split_steps, steps_of};
use replay::stream::ReplayFault;
use std::alloc::Global;
use std::process::Abort;
use std::test::Fail;
use test_texts::devices::{Basin, Drip};

// The result of a run with so many bytes a read: which lines it read and which it answered, if a growth was refused.
#[derive(Clone, Copy, Drop)]
enum Met {
    NoRefusal,
    Refusal { read: usize, answered: usize },
}

// A run of the census of two threads. A growth may also be refused before it begins.
fn met_in_a_run(rt: &impl Abort, alloc: Global, step: usize) -> Option<Met> {
    let rows = run_named(rt, "safepoint_of_two_threads").rows;
    let steps = steps_of(alloc, rows).ok()?;
    let (input, output) = split_steps(rt, alloc, &steps)?;
    let mut sink = Basin::new(alloc, 1_000_000, 0, false);
    sink.got.reserve(output.len()).ok()?;
    let mut source = Drip::new(&input, step, 0);
    let outcome = replayed(alloc, &mut source, &mut sink);
    assert!(rt; are_answers(&sink.got, &output));
    if outcome.is_ok() {
        assert!(rt; sink.got.as_slice() == output.as_slice());
        return Some(Met::NoRefusal);
    }
    assert!(rt; matches!(outcome, Err(ReplayFault::NoMemory)));
    let bytes = input.len().saturating_sub(source.rest.len());
    Some(Met::Refusal {
        read: newlines(&input[..bytes]),
        answered: newlines(&sink.got),
    })
}

#[test]
fn refused_memory_leaves_the_answers_before_a_line(rt: HostRuntime) -> Result<(), Fail> {
    match met_in_a_run(&rt, rt.alloc(), 1) {
        None => println!(rt; "refused before the run")?,
        Some(Met::NoRefusal) => println!(rt; "no growth was refused")?,
        Some(Met::Refusal { read, answered }) => {
            // At one byte a read, the line at which memory was refused is the last that was read.
            assert!(rt; answered == read.saturating_sub(1));
            println!(rt; "refused after {answered} answers")?;
        }
    }
    Ok(())
}

#[test]
fn refused_memory_leaves_as_many_answers_of_a_block(rt: HostRuntime) -> Result<(), Fail> {
    match met_in_a_run(&rt, rt.alloc(), 1_000_000) {
        None => println!(rt; "refused before the run")?,
        Some(Met::NoRefusal) => println!(rt; "no growth was refused")?,
        Some(Met::Refusal { read: _, answered }) => {
            println!(rt; "refused after {answered} answers")?;
        }
    }
    Ok(())
}
