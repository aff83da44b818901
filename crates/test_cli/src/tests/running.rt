// What no clause says of a run: the text of whole runs, that threads run beside each other, and that codes are reclaimed.
ghost use Rattle.std.specs.Prelude.{◌<◌, ◌≤◌};

use super::LOOP_OF_CALLS;
use cli::{Fault, check_text, run_with};
use replay::device::IntoWriter;
use script::Code;
use std::alloc::Global;
use std::io::{BufWriter, Write};
use std::sync::Wait;
use std::sync::atomic::{AtomicU64, Ordering};
use std::test::Fail;
use std::thread::{self, Threads};
use test_texts::devices::Basin;
use workers::{Gate, OpenGate};

fn code_of(alloc: Global, text: &[u8]) -> Result<Code, Fail> {
    match check_text(alloc, text) {
        Ok(code) => Ok(code),
        Err(_) => Err(Fail::from("the script is wrong")),
    }
}

/// What a run prints.
fn printed<R: Threads + Wait + Sync, G: Gate + Sync>(
    rt: &R,
    alloc: Global,
    text: &[u8],
    threads: usize,
    gate: &G,
) -> Result<Vec<u8>, Fail>
    requires { (0 < threads) × (threads ≤ 64) }
{
    let code = code_of(alloc, text)?;
    let mut out = Vec::new(alloc);
    let mut sink = IntoWriter::new(&mut out);
    match run_with(rt, alloc, &code, threads, gate, &mut sink) {
        Ok(()) => Ok(out),
        Err(_) => Err(Fail::from("a fault of the run")),
    }
}

#[test]
fn four_threads_run_a_loop_of_calls(rt: HostRuntime) -> Result<(), Fail> {
    let found = printed(&rt, rt.alloc(), LOOP_OF_CALLS, 4, &OpenGate)?;
    let wanted =
        b"threads 4\nthread 1 finished 17\nthread 2 finished 17\nthread 3 finished 17\nthread 4 finished 17\ncompiled yes\ncodes 4 freed 4\ncounts 0\n";
    assert!(rt; found.as_slice() == wanted.as_slice());
    Ok(())
}

const OVERFLOW: &str =
    "threads 1\nthread 1 overflow 256\ncompiled yes\ncodes 2 freed 2\ncounts 0\n";

const OUT_OF_FUEL: &str =
    "threads 1\nthread 1 fuel 1000000\ncompiled yes\ncodes 2 freed 2\ncounts 0\n";

#[test]
fn a_run_overflows_or_runs_out_of_fuel(rt: HostRuntime) -> Result<(), Fail> {
    for (script, wanted) in [
        (r#"{"methods":[[{"call":0}]]}"#, OVERFLOW),
        (r#"{"methods":[[{"loop":1000000,"body":[]}]]}"#, OUT_OF_FUEL),
    ] {
        let found = printed(&rt, rt.alloc(), script.as_bytes(), 1, &OpenGate)?;
        assert!(rt; found.as_slice() == wanted.as_bytes());
    }
    Ok(())
}

// Counts the ticks of each of two threads. The first thread's tick waits until the second has ticked, for so many turns at most.
#[derive(Drop)]
struct Meeting {
    first: AtomicU64,
    second: AtomicU64,
    missed: AtomicU64,
}

impl Gate for Meeting {
    fn tick(&self, name: u64) {
        if name == 2 {
            self.second.fetch_add(1, Ordering::SeqCst);
            return;
        }
        self.first.fetch_add(1, Ordering::SeqCst);
        for _ in 0..1_000_000 {
            if self.second.load(Ordering::SeqCst) > 0 {
                return;
            }
            thread::yield_now();
        }
        self.missed.fetch_add(1, Ordering::SeqCst);
    }
}

#[test]
fn two_ticks_meet(rt: HostRuntime) -> Result<(), Fail> {
    let gate = Meeting {
        first: AtomicU64::new(0),
        second: AtomicU64::new(0),
        missed: AtomicU64::new(0),
    };
    let found = printed(&rt, rt.alloc(), b"{\"methods\":[[\"tick\"]]}", 2, &gate)?;
    let wanted =
        b"threads 2\nthread 1 finished 3\nthread 2 finished 3\ncompiled yes\ncodes 2 freed 2\ncounts 0\n";
    assert!(rt; found.as_slice() == wanted.as_slice());
    assert!(rt; gate.first.load(Ordering::SeqCst) == 1);
    assert!(rt; gate.second.load(Ordering::SeqCst) == 1);
    assert!(rt; gate.missed.load(Ordering::SeqCst) == 0);
    Ok(())
}

// The code of the loop of calls, and room for what a run of it prints; None where memory was refused.
fn made_before_the_run(alloc: Global) -> Result<Option<(Code, Vec<u8>)>, Fail> {
    let code = match check_text(alloc, LOOP_OF_CALLS) {
        Ok(code) => code,
        Err(Fault::NoMemory) => return Ok(None),
        Err(_) => return Err(Fail::from("the script is wrong")),
    };
    let Ok(out) = Vec::with_capacity(alloc, 1000) else {
        return Ok(None);
    };
    Ok(Some((code, out)))
}

// It passes whichever growth of memory is refused: the whole text is written, or nothing.
#[test]
fn refused_memory_prints_nothing(rt: HostRuntime) -> Result<(), Fail> {
    let alloc = rt.alloc();
    let Some((code, mut out)) = made_before_the_run(alloc)? else {
        println!(rt; "refused before the run")?;
        return Ok(());
    };
    let mut sink = IntoWriter::new(&mut out);
    let found = run_with(&rt, alloc, &code, 3, &OpenGate, &mut sink);
    match found {
        Ok(()) => {
            assert!(rt; out.len() == 111);
            println!(rt; "no growth was refused")?;
        }
        Err(Fault::NoMemory) => {
            assert!(rt; out.is_empty());
            println!(rt; "refused in the run")?;
        }
        Err(Fault::NoThread) => {
            assert!(rt; out.is_empty());
            println!(rt; "refused while threads were started")?;
        }
        Err(_) => return Err(Fail::from("another fault")),
    }
    Ok(())
}

const ONE_THREAD: &[u8] =
    b"threads 1\nthread 1 finished 17\ncompiled yes\ncodes 4 freed 4\ncounts 0\n";

/// Runs the loop of calls on one thread, into a writer.
fn run_into<R: Threads + Wait + Sync, W: Write>(
    rt: &R,
    alloc: Global,
    writer: &mut W,
) -> Result<Result<(), Fault>, Fail> {
    let code = code_of(alloc, LOOP_OF_CALLS)?;
    let mut sink = IntoWriter::new(writer);
    Ok(run_with(rt, alloc, &code, 1, &OpenGate, &mut sink))
}

// The text takes ten writes of seven bytes.
#[test]
fn a_failed_write_of_a_run_is_told(rt: HostRuntime) -> Result<(), Fail> {
    for bad_call in 1..11 {
        for takes_nothing in [false, true] {
            let mut basin = Basin::new(rt.alloc(), 7, bad_call, takes_nothing);
            let told = run_into(&rt, rt.alloc(), &mut basin)?;
            assert!(rt; matches!(told, Err(Fault::WriteFailed)));
            assert!(rt; basin.calls == bad_call);
            assert!(rt; basin.got.len() == 7 * (bad_call - 1));
            assert!(rt; ONE_THREAD.starts_with(basin.got.as_slice()));
        }
    }
    let mut basin = Basin::new(rt.alloc(), 7, 11, false);
    assert!(rt; run_into(&rt, rt.alloc(), &mut basin)?.is_ok());
    assert!(rt; basin.got.as_slice() == ONE_THREAD);
    Ok(())
}

// What a caller's writer keeps back, the caller flushes: six writes of seven bytes are made by the run, and four by the caller.
#[test]
fn a_failed_write_under_a_buffer_is_told(rt: HostRuntime) -> Result<(), Fail> {
    for bad_call in 1..12 {
        let basin = Basin::new(rt.alloc(), 7, bad_call, false);
        let mut buffered = BufWriter::with_capacity(rt.alloc(), 30, basin)?;
        let told = run_into(&rt, rt.alloc(), &mut buffered)?;
        let flushed = buffered.flush();
        let (basin, _) = buffered.into_parts();
        assert!(rt; told.is_ok() == (bad_call > 6));
        assert!(rt; (told.is_ok() && flushed.is_ok()) == (bad_call > 10));
        assert!(rt; ONE_THREAD.starts_with(basin.got.as_slice()));
        assert!(rt; (basin.got.len() == ONE_THREAD.len()) == (bad_call > 10));
    }
    Ok(())
}
