// The core's answers to the lines of a run.
use super::rows::steps_in;
use replay::device::{FromReader, IntoWriter};
use replay::stream::replay;
use std::alloc::Global;
use std::process::Abort;

const NO_MEMORY: &str = "memory was refused";

fn push_line(rt: &impl Abort, text: &mut Vec<u8>, line: &str) {
    text.extend_from_slice(line.as_bytes())
        .expect(rt, NO_MEMORY);
    text.push(b'\n').expect(rt, NO_MEMORY);
}

// The core's lines, and their answers.
fn core_sides(rt: &impl Abort, alloc: Global, rows: &str) -> (Vec<u8>, Vec<u8>) {
    let mut input = Vec::new(alloc);
    let mut output = Vec::new(alloc);
    for row in rows.lines() {
        for step in steps_in(row).split("; ") {
            let (calls, answer) = step.split_once(" => ").unwrap_or((step, ""));
            let (command, _) = calls.split_once("| ").unwrap_or((calls, ""));
            if !command.is_empty() {
                push_line(rt, &mut input, command.trim_end());
                push_line(rt, &mut output, answer);
            }
        }
    }
    (input, output)
}

pub fn is_answered(rt: &impl Abort, alloc: Global, rows: &str) -> bool {
    let (input, output) = core_sides(rt, alloc, rows);
    let mut got = Vec::new(alloc);
    let ran = replay(
        alloc,
        &mut FromReader::new(input.as_slice()),
        &mut IntoWriter::new(&mut got),
    );
    ran.is_ok() && got.as_slice() == output.as_slice()
}
