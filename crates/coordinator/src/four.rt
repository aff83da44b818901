//! Works on up to four handshakes at once, from their Opens to their Closes.
ghost use Rattle.std.specs.Prelude.{◌≡◌, [], false, IfErr, OnOk};
ghost use Rattle.stopped_threads.specs.Holding.{ArmsOn};
ghost use Rattle.coordinator.specs.Driving.{drive_refused};

use crate::all_armed::AllArmed;
use crate::coordinator::Coordinator;
use crate::driving_handshakes::Passes;
use crate::faults::DriveFault;
use bodies::Name;
use desk::CloseFault;
use operations::Kind;
use operations::job::HandshakeOp;
use std::sync::Wait;

impl<'a, N: Name, J: HandshakeOp> Coordinator<'a, N, J> {
    /// Works on up to four handshakes at once, or on one census, until nothing is open: opens all that may be open
    /// together, arms all their targets, serves and closes. Returns the number of closed requests. Nothing is held
    /// then.
    ///
    /// # Errors
    /// As `drive`. After `NoMemory` the census stays open, and its threads stay armed and held.
    pub fn drive_four<R: Wait>(&mut self, rt: &R) -> Result<u32, DriveFault>
        ensures free { OnOk result ((self.new.held ≡ []) × (self.new.operated ≡ false)) }
        ensures refused { IfErr result (drive_refused self.old self.new) }
        ensures arms { ArmsOn self.old.armer self.new.armer }
    {
        self.open_all(rt);
        let Some((kind, told)) = self.begin(rt) else {
            return Err(DriveFault::QueueEmpty);
        };
        match kind {
            Kind::Census => {
                let _ = self.drive_census(rt)?;
                Ok(1)
            }
            Kind::Handshake => Ok(self.drive_handshakes(rt, told)),
        }
    }

    // Opens all requests that may be opened.
    fn open_all<R: Wait>(&mut self, rt: &R)
        ensures { self.new ≡ self.old }
    {
        for _ in rt.forever() {
            if self.open(rt).is_err() {
                return;
            }
        }
    }

    // Serves the targets, pass by pass, until nothing is open. Returns the number of closed requests.
    fn drive_handshakes<R: Wait>(&mut self, rt: &R, told: AllArmed<N, J>) -> u32
        ensures free { (self.new.held ≡ []) × (self.new.operated ≡ false) }
        ensures armer { self.new.armer ≡ self.old.armer }
    {
        self.release_all(rt);
        self.operated = false;
        let mut closed: u32 = 0;
        let mut passes = Passes::new(told);
        self.serve_pass(rt, &mut passes);
        for _ in rt.forever() {
            match self.close(rt) {
                Ok(_) => closed = closed.saturating_add(1),
                Err(CloseFault::NothingOpen) => return closed,
                Err(_) => self.serve_pass(rt, &mut passes),
            }
        }
        unreachable!()
    }
}
