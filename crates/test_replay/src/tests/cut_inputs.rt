// An input that is cut at each of its bytes.
use super::{is_answered, run_named, steps_of};
use std::alloc::Global;
use std::process::Abort;
use std::test::Fail;

// The answer to the part of a command that a cut leaves. One command is the beginning of another: an entry without a code.
fn answer_to_rest<'a>(rest: &[u8], command: &[u8], answer: &'a [u8]) -> &'a [u8] {
    if rest == command {
        answer
    } else if rest == b"enter 0 0".as_slice() {
        b"entered".as_slice()
    } else {
        b"bad line".as_slice()
    }
}

// Adds the bytes of a command one after another, and then its newline. After each byte, the answer to the input is the output so far and
// the answer to the command's part.
fn cut_in_command(
    rt: &impl Abort,
    alloc: Global,
    input: &mut Vec<u8>,
    output: &mut Vec<u8>,
    command: &[u8],
    answer: &[u8],
) {
    let (before, whole) = (input.len(), output.len());
    for byte in command {
        input.push(*byte).expect(rt, "memory");
        let rest = input.get(before..).unwrap_or_default();
        output.truncate(whole);
        output
            .extend_from_slice(answer_to_rest(rest, command, answer))
            .expect(rt, "memory");
        output.push(b'\n').expect(rt, "memory");
        assert!(rt; is_answered(alloc, input, output), "{}", input.len());
    }
    input.push(b'\n').expect(rt, "memory");
}

#[test]
fn a_cut_input_is_answered_up_to_the_cut(rt: HostRuntime) -> Result<(), Fail> {
    let mut input = Vec::new(rt.alloc());
    let mut output = Vec::new(rt.alloc());
    let run = run_named(&rt, "reclaimed_after_all_published");
    let steps = steps_of(rt.alloc(), run.rows)?;
    for step in steps.lines() {
        let (command, answer) = step.split_once(" => ").expect(&rt, "an answer");
        assert!(rt; is_answered(rt.alloc(), &input, &output), "{command}");
        let (command, answer) = (command.as_bytes(), answer.as_bytes());
        cut_in_command(&rt, rt.alloc(), &mut input, &mut output, command, answer);
    }
    assert!(rt; is_answered(rt.alloc(), &input, &output));
    Ok(())
}
