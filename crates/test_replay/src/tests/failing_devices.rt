// Reads and writes that fail, each in turn. A failed call isn't repeated.
use super::{are_answers, newlines, replayed, run_named, sides};
use replay::stream::ReplayFault;
use std::alloc::Global;
use std::process::Abort;
use std::test::Fail;
use test_texts::devices::{Basin, Drip};

fn held_in_native(rt: &impl Abort, alloc: Global) -> (Vec<u8>, Vec<u8>) {
    sides(rt, alloc, run_named(rt, "held_in_native").rows)
}

// How many bytes there are up to the end of the line after so many lines.
fn end_of_line(text: &[u8], lines_before: usize) -> usize {
    let mut lines = 0usize;
    for (at, byte) in text.iter().enumerate() {
        if *byte == b'\n' {
            if lines == lines_before {
                return at.saturating_add(1);
            }
            lines = lines.saturating_add(1);
        }
    }
    text.len()
}

#[test]
fn a_read_that_fails_in_a_line_leaves_the_whole_lines(rt: HostRuntime) -> Result<(), Fail> {
    let mut source = Drip::new(b"size 1 1 1\nsta", 14, 2);
    let mut sink = Basin::new(rt.alloc(), 100, 0, false);
    let outcome = replayed(rt.alloc(), &mut source, &mut sink);
    assert!(rt; matches!(outcome, Err(ReplayFault::ReadFailed)));
    assert!(rt; sink.got.as_slice() == b"ok\n".as_slice());
    assert!(rt; source.calls == 2 && sink.calls == 1);
    Ok(())
}

#[test]
fn each_read_may_fail(rt: HostRuntime) -> Result<(), Fail> {
    let (input, output) = held_in_native(&rt, rt.alloc());
    for bad_call in 1..1000 {
        let mut source = Drip::new(&input, 1, bad_call);
        let mut sink = Basin::new(rt.alloc(), 3, 0, false);
        let outcome = replayed(rt.alloc(), &mut source, &mut sink);
        if source.calls < bad_call {
            assert!(rt; outcome.is_ok());
            assert!(rt; sink.got.as_slice() == output.as_slice());
            return Ok(());
        }
        assert!(rt; matches!(outcome, Err(ReplayFault::ReadFailed)));
        assert!(rt; source.calls == bad_call);
        let read = input.len().saturating_sub(source.rest.len());
        assert!(rt; are_answers(&sink.got, &output));
        assert!(rt; newlines(&sink.got) == newlines(&input[..read]));
    }
    Err(Fail::from("no run without a fault"))
}

// Each write fails in turn, or takes nothing, at one byte a read and a write. The line whose answer was to be written is the last
// that was read.
fn fail_each_write(rt: &impl Abort, alloc: Global, takes_nothing: bool) -> Result<(), Fail> {
    let (input, output) = held_in_native(rt, alloc);
    for bad_call in 1..1000usize {
        let mut source = Drip::new(&input, 1, 0);
        let mut sink = Basin::new(alloc, 1, bad_call, takes_nothing);
        let outcome = replayed(alloc, &mut source, &mut sink);
        if bad_call > output.len() {
            assert!(rt; outcome.is_ok());
            assert!(rt; sink.got.as_slice() == output.as_slice());
            return Ok(());
        }
        assert!(rt; matches!(outcome, Err(ReplayFault::WriteFailed)));
        assert!(rt; sink.calls == bad_call);
        let written = &output[..bad_call - 1];
        assert!(rt; sink.got.as_slice() == written);
        assert!(rt; source.calls == end_of_line(&input, newlines(written)));
    }
    Err(Fail::from("no run without a fault"))
}

#[test]
fn each_write_may_fail_or_take_nothing(rt: HostRuntime) -> Result<(), Fail> {
    for takes_nothing in [false, true] {
        fail_each_write(&rt, rt.alloc(), takes_nothing)?;
    }
    Ok(())
}
