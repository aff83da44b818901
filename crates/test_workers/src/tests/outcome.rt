//! A run whose jobs note what they see.
ghost use Rattle.std.specs.Prelude.{◌≡◌, All, length};
ghost use Rattle.operations.specs.Asks.{reply};
ghost use Rattle.workers.specs.Jobs.{AreForEach};
ghost use Rattle.workers.specs.Sizes.{HasSize};

use crate::tests::watch::Watch;
use bodies::Name;
use frames::image::Image;
use operations::Ask;
use operations::job::{Call, HandshakeOp, Job};
use script::Code;
use std::alloc::{AllocError, Global};
use std::marker::Brand;
use std::sync::{Arc, Wait};
use std::test::Fail;
use std::thread::Threads;
use thread_list::Parts;

// Runs a script, and answers what the run says and what was seen of it.
fn told<N: Name + Send, J: HandshakeOp + Send, R: Threads + Wait + Sync>(
    rt: &R,
    alloc: Global,
    code: &Code,
    threads: usize,
    watch: &Watch,
    parts: Parts,
    jobs: Vec<Vec<J>>,
) -> Result<String, Fail>
    requires tables { (parts.board ≡ N.board) × (parts.row ≡ N.poll_row) }
    requires sizes { HasSize threads (length code.now) parts }
    requires jobs { length jobs.items ≡ length code.now }
    requires each { All (λ js. AreForEach J.whom J.asks threads js.items) jobs.items }
{
    let Ok(summary) = workers::run::<N, J, R, Watch>(rt, alloc, code, threads, watch, parts, jobs)
    else {
        return Err(Fail::from("a fault of the run"));
    };
    let mut text = format!(in alloc; "{summary}")?;
    text.push_str(&watch.text(alloc)?)?;
    Ok(text)
}

/// Runs a script, with a job for each method and thread. Answers what the run says and what was seen of it.
pub fn outcome<R: Threads + Wait + Sync>(
    rt: &R,
    alloc: Global,
    code: &Code,
    threads: usize,
    watch: &Watch,
) -> Result<String, Fail> {
    let methods = code.methods();
    let Ok(parts) = Parts::new(alloc, threads, methods.saturating_mul(2), methods) else {
        return Err(Fail::from("no parts"));
    };
    let mut jobs = Vec::with_capacity(alloc, methods)?;
    while jobs.len() < methods {
        let mut list = Vec::with_capacity(alloc, threads)?;
        for place in 0..threads {
            let name = place as u64 + 1;
            let notes = Arc::try_clone(&watch.seen)?;
            let call: Call = Box::new(
                alloc,
                move |image: &Image| -> u64
                    ensures { result ≡ reply Ask.Depth image.now.frames }
                {
                    notes.note(name, image.frames());
                    image.depth() as u64
                },
            )
            .map_err(|_| AllocError)?;
            let job = Job::new(name, Ask::Depth, call);
            list.push_reserved(job);
        }
        jobs.push_reserved(list);
    }
    told::<Brand, Job, R>(rt, alloc, code, threads, watch, parts, jobs)
}
