// Running a script on threads.
ghost use Rattle.std.specs.Prelude.{◌≡◌, ◌≤◌, ◌<◌, All, length, IfOk, IfErr, string_bytes};
ghost use Rattle.operations.specs.Asks.{reply};
ghost use Rattle.workers.specs.Jobs.{AreForEach};
ghost use Rattle.workers.specs.Summaries.{summary_text};
ghost use Rattle.workers.specs.Sizes.{HasSize};
ghost use Rattle.cli.specs.Run.{IsNotRun, IsText, Printed, FailedWrites};

use crate::fault::Fault;
use bodies::Name;
use frames::image::Image;
use operations::Ask;
use operations::job::{Call, HandshakeOp, Job};
use replay::device::Sink;
use replay::stream::flush;
use script::Code;
use std::alloc::{AllocError, Global};
use std::marker::Brand;
use std::sync::Wait;
use std::thread::Threads;
use thread_list::{Parts, PartsFault};
use workers::{Gate, Summary};

/// Runs a script on 1 to 64 threads, and writes the summary of the run: the number of threads, a line for each, whether some frame was
/// compiled, the numbers of codes that were installed and freed, and the sum of all count words. Each tick of the script calls the gate.
/// No thread of the run is left when it returns. If a thread can't be made or memory is refused, it writes nothing.
pub fn run_with<R: Threads + Wait + Sync, G: Gate + Sync, W: Sink>(
    rt: &R,
    alloc: Global,
    code: &Code,
    threads: usize,
    gate: &G,
    sink: &mut W,
) -> Result<(), Fault>
    requires threads { (0 < threads) × (threads ≤ 64) }
    requires sink { W.failures sink.old ≡ 0 }
    ensures printed { Printed code.now threads result (W.got sink.old) (W.got sink.new) }
    ensures failed { FailedWrites result (W.failures sink.new) }
{
    let methods = code.methods();
    let parts = parts_of(alloc, threads, methods)?;
    let mut jobs = Vec::with_capacity(alloc, methods)?;
    while jobs.len() < methods {
        let mut list = Vec::with_capacity(alloc, threads)?;
        for place in 0..threads {
            let call: Call = Box::new(
                alloc,
                |image: &Image| -> u64
                    ensures { result ≡ reply Ask.Depth image.now.frames }
                { image.depth() as u64 },
            )
            .map_err(|_| AllocError)?;
            let job = Job::new(place as u64 + 1, Ask::Depth, call);
            list.push_reserved(job);
        }
        jobs.push_reserved(list);
    }
    let text = run_sized::<Brand, Job, R, G>(rt, alloc, code, threads, gate, parts, jobs)?;
    let mut text = text.into_bytes();
    match flush(&mut text, sink) {
        Ok(()) => Ok(()),
        Err(_) => Err(Fault::WriteFailed),
    }
}

// The parts of a system with this many places, and two slots for each method.
fn parts_of(alloc: Global, threads: usize, methods: usize) -> Result<Parts, Fault>
    ensures sizes { IfOk result (HasSize threads methods) }
    ensures refused { IfErr result IsNotRun }
{
    match Parts::new(alloc, threads, methods.saturating_mul(2), methods) {
        Ok(parts) => Ok(parts),
        Err(PartsFault::NoMemory) => Err(Fault::NoMemory),
        Err(PartsFault::BadSize) => Err(Fault::Refused),
    }
}

// Runs a script over parts that have exactly its size. Returns the text of the summary.
fn run_sized<N: Name + Send, J: HandshakeOp + Send, R: Threads + Wait + Sync, G: Gate + Sync>(
    rt: &R,
    alloc: Global,
    code: &Code,
    threads: usize,
    gate: &G,
    parts: Parts,
    jobs: Vec<Vec<J>>,
) -> Result<String, Fault>
    requires tables { (parts.board ≡ N.board) × (parts.row ≡ N.poll_row) }
    requires sizes { HasSize threads (length code.now) parts }
    requires jobs { length jobs.items ≡ length code.now }
    requires each { All (λ js. AreForEach J.whom J.asks threads js.items) jobs.items }

    ensures text { IfOk result (λ text. IsText code.now threads (string_bytes text)) }
    ensures refused { IfErr result IsNotRun }
{
    let summary = workers::run::<N, J, R, G>(rt, alloc, code, threads, gate, parts, jobs)?;
    Ok(text_of(alloc, &summary)?)
}

// The text of a summary.
fn text_of<N: Name>(alloc: Global, summary: &Summary<N>) -> Result<String, AllocError>
    ensures { IfOk result (λ text. string_bytes text ≡ summary_text summary.now) }
{
    format!(in alloc; "{summary}")
}
