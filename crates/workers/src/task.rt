//! A thread's run of a script, from its first mark to its exit.
ghost use Rattle.std.specs.Prelude.{◌≡◌, false, IfOk, OnOk};
ghost use Rattle.interp.specs.Left.{made_by};
ghost use Rattle.workers.specs.Ended.{IsBegun, IsReport, ending_of};

use crate::gate::Gate;
use crate::report::{Ending, Report};
use crate::worker::{Refused, Worker};
use bodies::Name;
use interp::{Outcome, Runner};
use operations::job::HandshakeOp;
use script::Code;
use std::alloc::Global;
use std::marker::Model;
use std::sync::Wait;

/// The most marks of a run.
pub const FUEL: u64 = 1_000_000;

/// A worker and the runner of a script. The first mark is made. Contracts see the code of the script and the thread's name.
#[derive(Drop)]
pub struct Task<'a, N: Name, J: HandshakeOp, R, G> {
    code: &'a Code,
    name: u64,
    runner: Runner<'a>,
    worker: Worker<'a, N, J, R, G>,
}

impl<'a, N: Name, J: HandshakeOp, R, G> Model for Task<'a, N, J, R, G> {
    ghost use Rattle.workers.specs.Ended.{Tasked, IsBegun};

    ghost Value = { Tasked };

    ghost view = { λ t. record { code = t.code.now; name = t.name } };

    ghost invariant = { λ t. IsBegun t.code.now t.name t.worker t.runner };
}

/// Why a task can't begin.
#[derive(Clone, Copy, PartialEq, Eq, Debug, Drop)]
pub enum BeginFault {
    NoMemory,
    /// The first mark is refused.
    Refused(Refused),
}

impl<'a, N: Name, J: HandshakeOp, R: Wait, G: Gate> Task<'a, N, J, R, G> {
    /// Makes the first mark of a script, which must be the worker's first mark. It takes all memory that the run needs.
    pub fn begin(
        alloc: Global,
        code: &'a Code,
        worker: Worker<'a, N, J, R, G>,
    ) -> Result<Task<'a, N, J, R, G>, BeginFault>
        requires { worker.compiled ≡ false }
        ensures begun { IfOk result (λ t. (t.code ≡ code.now)
            × (t.name ≡ worker.entry.thread.name)) }
    {
        let name = worker.name();
        let mut worker = worker;
        let Ok(mut runner) = Runner::new(alloc, code) else {
            return Err(BeginFault::NoMemory);
        };
        match runner.step(&mut worker) {
            Ok(_) => Ok(Task {
                code,
                name,
                runner,
                worker,
            }),
            Err(refused) => Err(BeginFault::Refused(refused)),
        }
    }

    /// The code of its script.
    pub fn code(&self) -> &'a Code
        ensures { result.now ≡ self.now.code }
    {
        self.code
    }

    /// The name of its thread.
    pub fn name(&self) -> u64
        ensures { result ≡ self.now.name }
    {
        self.name
    }

    /// Makes all other marks while there is fuel, returns from all methods, and exits.
    pub fn finish(self) -> Report<N>
        ensures report { IsReport self.entry.code result }
        ensures name { result.name ≡ self.entry.name }
    {
        let Task {
            code: _,
            name,
            mut runner,
            mut worker,
        } = self;
        let ending = ending_of(runner.run(&mut worker, FUEL - 1));
        let made = runner.made();
        let compiled = worker.compiled();
        Report::new(worker.exit(), name, ending, made, compiled)
    }
}

fn ending_of(outcome: Outcome<Refused>) -> Result<Ending, Refused>
    ensures { result ≡ ending_of outcome }
{
    match outcome {
        Outcome::Finished => Ok(Ending::Finished),
        Outcome::Overflow => Ok(Ending::Overflow),
        Outcome::OutOfFuel => Ok(Ending::OutOfFuel),
        Outcome::Refused(refused) => Err(refused),
    }
}
