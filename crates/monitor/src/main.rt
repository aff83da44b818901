//! The program: lines of events in, lines of answers out; or a script that is checked, or run on threads.
//! People and scripts run it: `replay`, `check FILE`, `run FILE [--threads N]`.
//! Read `cli/src/command_line.rt` first, then `docs/start/LINES.md` and `docs/start/SCRIPTS.md`.
#![tactic(auto)]

ghost use Rattle.std.specs.Prelude.{◌<◌, ◌≤◌};

use cli::{Fault, Form, OfProcess, check_script, read_code, read_form, read_words, run_with};
use replay::device::{FromReader, IntoWriter};
use replay::stream::replay;
use std::fs::File;
use std::process::ExitCode;
use std::sync::Wait;
use std::thread::Threads;
use workers::OpenGate;

/// `monitor replay` answers the lines of standard input on standard output. `monitor check FILE` prints how many methods the script in the
/// file has. `monitor run FILE [--threads N]` runs the script on N threads, 1 to 64 and by default 4, and prints the result of the run. The
/// status is 0 when all is done, 1 for a fault, and 2 for bad arguments, which are all other command lines. A fault is reported on standard
/// error, in one line.
fn main(rt: HostRuntime) -> ExitCode {
    match run(&rt, &rt) {
        Ok(()) => ExitCode::SUCCESS,
        Err(fault) => {
            let _ = eprintln!(rt; "monitor: {fault}");
            ExitCode::from(fault.status())
        }
    }
}

// `threads` is the runtime's capability to start threads and to block.
fn run<R: Threads + Wait + Sync>(rt: &HostRuntime, threads: &R) -> Result<(), Fault> {
    let words = read_words(&OfProcess::new(rt), rt.alloc())?;
    match read_form(&words) {
        Some(Form::Replay) => answer_lines(rt),
        Some(Form::Check(name)) => check_file(rt, name),
        Some(Form::Run(name, count)) => run_file(rt, threads, name, count),
        None => Err(Fault::BadWords),
    }
}

fn answer_lines(rt: &HostRuntime) -> Result<(), Fault> {
    let mut source = FromReader::new(rt.stdin());
    let mut sink = IntoWriter::new(rt.stdout());
    Ok(replay(rt.alloc(), &mut source, &mut sink)?)
}

fn check_file(rt: &HostRuntime, name: &str) -> Result<(), Fault> {
    let Ok(file) = File::open(rt, name) else {
        return Err(Fault::FileNotRead);
    };
    let mut source = FromReader::new(file);
    let mut sink = IntoWriter::new(rt.stdout());
    check_script(rt.alloc(), &mut source, &mut sink)
}

fn run_file<R: Threads + Wait + Sync>(
    rt: &HostRuntime,
    threads: &R,
    name: &str,
    count: usize,
) -> Result<(), Fault>
    requires { (0 < count) × (count ≤ 64) }
{
    let Ok(file) = File::open(rt, name) else {
        return Err(Fault::FileNotRead);
    };
    let code = read_code(rt.alloc(), &mut FromReader::new(file))?;
    let mut sink = IntoWriter::new(rt.stdout());
    run_with(threads, rt.alloc(), &code, count, &OpenGate, &mut sink)
}
