//! The program: lines of events in, a picture of the run out.
//! People and scripts run it, on lines that a runtime recorded.
//! Read `docs/start/TIMELINE.md` first, then `run_picture/src/picture.rt`.
#![tactic(auto)]

use replay::device::{FromReader, IntoWriter};
use replay::stream::ReplayFault;
use run_picture::{Fault, draw_run, read_words};
use std::env;
use std::io::ErrorKind;
use std::process::ExitCode;

/// `timeline [--html] [--from N] [--to M]` reads lines on standard input, as `monitor replay` does, and writes an SVG picture of the
/// run on standard output, or with `--html` a page with the picture, from line N to line M if they are given. The status is 0 when all is
/// drawn, 1 for a fault and 2 for other arguments. A fault is reported on standard error, in one line.
fn main(rt: HostRuntime) -> ExitCode {
    match draw(&rt) {
        Ok(()) => ExitCode::SUCCESS,
        Err(fault) => {
            let _ = eprintln!(rt; "timeline: {fault}");
            ExitCode::from(fault.status())
        }
    }
}

fn draw(rt: &HostRuntime) -> Result<(), Fault> {
    let Some(asked) = read_words(&words(rt)?) else {
        return Err(Fault::BadWords);
    };
    let mut source = FromReader::new(rt.stdin());
    let mut sink = IntoWriter::new(rt.stdout());
    Ok(draw_run(rt.alloc(), &mut source, &mut sink, asked)?)
}

// The arguments after the program's name.
fn words(rt: &HostRuntime) -> Result<Vec<String>, Fault> {
    let words = match env::args(rt) {
        Ok(words) => words,
        Err(error) if error.kind() == ErrorKind::OutOfMemory => {
            return Err(Fault::Failed(ReplayFault::NoMemory));
        }
        Err(_) => return Err(Fault::BadWords),
    };
    match words.skip(1).collect(rt.alloc()) {
        Ok(words) => Ok(words),
        Err(_) => Err(Fault::Failed(ReplayFault::NoMemory)),
    }
}
