// Whole inputs with their answers, through the public call, over devices that give and take little.
use replay::device::{FromReader, IntoWriter};
use replay::stream::{ReplayFault, replay};
use std::alloc::{AllocError, Global};
use std::process::Abort;
use std::test::Fail;
use test_texts::devices::{Basin, Drip};
use test_texts::parts::text_of;
use test_texts::rows::add_rows;

mod bad_lines;
mod cut_inputs;
mod failing_devices;
mod full_size;
mod operation_runs;
mod publication_runs;
mod refused_memory;
mod run_of_events;
mod trap_runs;

// Texts of runs, which have an empty line between them.
const TEXTS: [&str; 3] = [
    publication_runs::RUNS,
    operation_runs::RUNS,
    trap_runs::RUNS,
];

// A whole input with its answers: its name in a test, and its rows. Each step of a row (`test_texts`) is `LINE => ANSWER`.
#[derive(Clone, Copy)]
struct Run {
    name: &'static str,
    rows: &'static str,
}

fn run_of(text: &'static str) -> Run {
    let (name, rows) = text.split_once('\n').unwrap_or(("", text));
    Run { name, rows }
}

fn run_named(rt: &impl Abort, name: &str) -> Run {
    for text in TEXTS {
        for text in text.split("\n\n") {
            let run = run_of(text);
            if run.name == name {
                return run;
            }
        }
    }
    panic!(rt; "no run {name}")
}

// The steps that replace a row `one thread runs`.
const ONE_THREAD_RUNS: &str =
    "start => thread 1 place 0; begin 0 => ok; end 0 => ok; wake 0 => ok; cross 0 => go";

// The steps of rows, each on a line.
fn steps_of(alloc: Global, rows: &str) -> Result<String, AllocError> {
    let mut steps = String::new(alloc);
    for row in rows.lines() {
        let row = if row == "one thread runs" {
            ONE_THREAD_RUNS
        } else {
            row
        };
        add_rows(alloc, &mut steps, row)?;
    }
    Ok(steps)
}

fn replayed(alloc: Global, source: &mut Drip<'_>, sink: &mut Basin) -> Result<(), ReplayFault> {
    replay(
        alloc,
        &mut FromReader::new(source),
        &mut IntoWriter::new(sink),
    )
}

fn put_line(rt: &impl Abort, text: &mut Vec<u8>, line: &str) {
    text.extend_from_slice(line.as_bytes()).expect(rt, "memory");
    text.extend_from_slice(b"\n").expect(rt, "memory");
}

// The lines of steps, and their answers. Memory is taken for them before they are laid out.
fn split_steps(rt: &impl Abort, alloc: Global, steps: &str) -> Option<(Vec<u8>, Vec<u8>)> {
    let mut input = Vec::with_capacity(alloc, steps.len()).ok()?;
    let mut output = Vec::with_capacity(alloc, steps.len()).ok()?;
    for step in steps.lines() {
        let (line, answer) = step.split_once(" => ").expect(rt, "an answer");
        put_line(rt, &mut input, line);
        put_line(rt, &mut output, answer);
    }
    Some((input, output))
}

fn sides(rt: &impl Abort, alloc: Global, rows: &str) -> (Vec<u8>, Vec<u8>) {
    let steps = steps_of(alloc, rows).expect(rt, "memory");
    split_steps(rt, alloc, &steps).expect(rt, "memory")
}

fn is_answered(alloc: Global, input: &[u8], output: &[u8]) -> bool {
    for step in [1, 7, 1_000_000] {
        let mut source = Drip::new(input, step, 0);
        let mut sink = Basin::new(alloc, step, 0, false);
        if replayed(alloc, &mut source, &mut sink).is_err() || sink.got.as_slice() != output {
            return false;
        }
    }
    true
}

// Whole answers of a text are a beginning of it that ends with a newline, or nothing.
fn are_answers(got: &[u8], all: &[u8]) -> bool {
    all.starts_with(got) && (got.is_empty() || got.ends_with(b"\n"))
}

fn newlines(text: &[u8]) -> usize {
    text.iter().filter(|b| **b == b'\n').count()
}

fn expect_answers(rt: &impl Abort, alloc: Global, texts: &[&'static str]) {
    for text in texts {
        for text in text.split("\n\n") {
            let run = run_of(text);
            let (input, output) = sides(rt, alloc, run.rows);
            assert!(rt; is_answered(alloc, &input, &output), "{}", run.name);
        }
    }
}

#[test]
fn runs_are_answered(rt: HostRuntime) -> Result<(), Fail> {
    expect_answers(&rt, rt.alloc(), &TEXTS);
    expect_answers(&rt, rt.alloc(), &[bad_lines::RUNS]);
    Ok(())
}

#[test]
fn bytes_that_are_no_text_make_bad_lines(rt: HostRuntime) -> Result<(), Fail> {
    let input = b"size 1 1 1\nbegin 0\r\nbegin\xff 0\n\xff\nbegin 0\0\nbegin\0 0\nbegin \xb2\n";
    let output = b"ok\nbad line\nbad line\nbad line\nbad line\nbad line\nbad line\n";
    assert!(rt; is_answered(rt.alloc(), input, output));
    Ok(())
}

const DEEP_STACK: &str = "\
size 1 4 2 => ok
one thread runs
1 to 256 | enter 0 0 => entered
enter 0 0 => refused DepthFull";

#[test]
fn the_last_line_needs_no_newline(rt: HostRuntime) -> Result<(), Fail> {
    for (end, answer) in [
        ("exit 0", "refused StackNotEmpty\n"),
        ("lea", "bad line\n"),
        ("edge 0", "go\n"),
        ("exit 0\n", "refused StackNotEmpty\n"),
        ("", ""),
    ] {
        let (mut lines, mut answers) = sides(&rt, rt.alloc(), DEEP_STACK);
        lines.extend_from_slice(end.as_bytes())?;
        answers.extend_from_slice(answer.as_bytes())?;
        assert!(rt; is_answered(rt.alloc(), &lines, &answers), "{end}");
    }
    Ok(())
}

fn expect_parts(rt: &impl Abort, alloc: Global, parts: &str, output: &[u8]) {
    let input = text_of(alloc, parts).expect(rt, "memory");
    assert!(rt; is_answered(alloc, &input, output), "{parts}");
}

// Asks with 78 names, in lines of 1023, 1024 and 1025 bytes: 11 before the zeros, 76 times 13 after them, and then 14.
#[test]
fn lines_of_1024_bytes_are_taken(rt: HostRuntime) -> Result<(), Fail> {
    let refused = b"ok\nrefused BadTargets\n".as_slice();
    for (zeros, output) in [
        (10, refused),
        (11, refused),
        (12, b"ok\nbad line\n".as_slice()),
    ] {
        let parts = format!(in rt.alloc();
            "size 1 1 1\nask depth 1|{zeros}*0|76* 100000000001| 1000000000000\n"
        )?;
        expect_parts(&rt, rt.alloc(), &parts, output);
    }
    Ok(())
}

#[test]
fn an_empty_input_is_answered_with_nothing(rt: HostRuntime) -> Result<(), Fail> {
    let mut source = Drip::new(b"", 1, 0);
    let mut sink = Basin::new(rt.alloc(), 1, 0, false);
    assert!(rt; replayed(rt.alloc(), &mut source, &mut sink).is_ok());
    assert!(rt; sink.calls == 0);
    Ok(())
}

#[test]
fn a_line_without_end_is_one_bad_line(rt: HostRuntime) -> Result<(), Fail> {
    expect_parts(&rt, rt.alloc(), "size 1 1 1\n|1000000*a", b"ok\nbad line\n");
    Ok(())
}
