//! The codes of a run, and the acts of the thread that installs and reclaims them.
ghost use Rattle.std.specs.Prelude.{◌≡◌, ◌==◌, ◌≤◌, ◌<◌, ◌+◌, IfOk, IfSome, IfNone, OnOk, length};
ghost use Rattle.std.specs.List.{filter, list_any};
ghost use Rattle.poll.specs.Rows.{full_armer};
ghost use Rattle.desk.specs.declared.entries.Entry.{Entry};
ghost use Rattle.stopped_threads.specs.Reclaiming.{IsReclaimed};
ghost use Rattle.stopped_threads.specs.declared.faults.Reclaimed.{Reclaimed};
ghost use Rattle.workers.specs.Replacing.{IsInstall, InstallsEach, IsKeptBy, IsLeft, Replaced, ReplacedEach, FreesSome, Reclaims};

use crate::fault::RunFault;
use bodies::Name;
use coordinator::{Coordinator, Reclaimed};
use desk::{AskFault, CodeFault, Receipt, ReclaimFault};
use method_table::table::InstallFault;
use operations::job::HandshakeOp;
use poll::Armer;
use std::alloc::Global;
use std::marker::Model;
use std::sync::Wait;
use thread_list::Shared;

/// Installs, invalidates and reclaims codes. After each reclaim the desk forgets its history so far, which nobody reads here: no number
/// of codes fills it. Contracts see the code in use of each method, the codes that are out of use and not freed, and the receipts of
/// those that were installed and freed.
#[derive(Drop)]
pub struct Reclaimer<'a, N: Name, J: HandshakeOp> {
    shared: &'a Shared<N, J>,
    coordinator: Coordinator<'a, N, J>,
    in_use: Vec<u64>,
    left: Vec<u64>,
    installed: Vec<Receipt<N>>,
    freed: Vec<Receipt<N>>,
}

impl<'a, N: Name, J: HandshakeOp> Model for Reclaimer<'a, N, J> {
    ghost use Rattle.workers.specs.Replacing.{Codes};

    ghost Value = { Codes };

    ghost view = { λ r. record {
      in_use = r.in_use.items;
      left = r.left.items;
      installed = r.installed.items;
      freed = r.freed.items;
    } };
}

/// The receipts of the codes that were installed and freed, and the sum of all count words at the end.
#[derive(Drop)]
pub struct Tally<N: Name> {
    pub installed: Vec<Receipt<N>>,
    pub freed: Vec<Receipt<N>>,
    pub counts: u64,
}

impl<'a, N: Name, J: HandshakeOp> Reclaimer<'a, N, J> {
    /// Installs a code for each of this many methods.
    pub fn new<R: Wait>(
        rt: &R,
        alloc: Global,
        shared: &'a Shared<N, J>,
        armer: Armer,
        methods: usize,
    ) -> Result<Reclaimer<'a, N, J>, RunFault>
        requires armer { armer ≡ full_armer N.poll_row N.board.places }
        ensures { IfOk result (InstallsEach methods) }
    {
        let Ok(coordinator) = Coordinator::new(shared, armer, alloc) else {
            return Err(RunFault::NoMemory);
        };
        let mut in_use = Vec::with_capacity(alloc, methods)?;
        let mut installed = Vec::with_capacity(alloc, methods)?;
        for method in 0..methods {
            let (serial, receipt) = install(rt, shared, method)?;
            in_use.push_reserved(serial);
            installed.push_reserved(receipt);
        }
        Ok(Reclaimer {
            shared,
            coordinator,
            in_use,
            left: Vec::new(alloc),
            installed,
            freed: Vec::new(alloc),
        })
    }

    /// How many methods have a code in use.
    pub fn methods(&self) -> usize
        ensures { result ≡ length self.now.in_use }
    {
        self.in_use.len()
    }

    /// For each method in rising order: installs a code over the one in use, and tries once to reclaim the old one. Of its list of jobs
    /// it uses those for live threads.
    pub fn replace_each<R: Wait>(&mut self, rt: &R, jobs: Vec<Vec<J>>) -> Result<(), RunFault>
        requires { length jobs.items ≡ length self.old.in_use }
        ensures { OnOk result (ReplacedEach self.old self.new) }
    {
        let mut jobs = jobs;
        let methods = jobs.len();
        for method in 0..methods {
            let Some(all) = jobs.pop() else {
                unreachable!()
            };
            let live = self.shared.live(rt)?;
            self.replace(rt, method, of_live(all, &live))?;
        }
        Ok(())
    }

    /// Invalidates all codes, and tries to reclaim each that isn't freed, without jobs.
    pub fn finish<R: Wait>(self, rt: &R, alloc: Global) -> Result<Tally<N>, RunFault>
        ensures installed { IfOk result (λ t. t.installed.items ≡ self.entry.installed) }
        ensures freed { IfOk result (λ t. Reclaims self.entry t.freed.items) }
        ensures few { IfOk result
            (λ t. length t.freed.items ≤ length self.entry.freed + length self.entry.left + length
            self.entry.in_use) }
    {
        let Reclaimer {
            shared,
            mut coordinator,
            in_use,
            left,
            installed,
            mut freed,
        } = self;
        for serial in &in_use {
            invalidate(rt, shared, *serial)?;
        }
        reclaim_all(rt, alloc, shared, &mut coordinator, &left, &mut freed)?;
        reclaim_all(rt, alloc, shared, &mut coordinator, &in_use, &mut freed)?;
        Ok(Tally {
            installed,
            freed,
            counts: shared.peek_counts(),
        })
    }

    /// Installs a code over that of a method, and tries once to reclaim the old one. Each of the jobs is for another live thread.
    pub fn replace<R: Wait>(&mut self, rt: &R, method: usize, jobs: Vec<J>) -> Result<(), RunFault>
        requires { method < length self.old.in_use }
        ensures { OnOk result (Replaced method self.old self.new) }
    {
        let old = self.in_use[method];
        let (new, receipt) = install(rt, self.shared, method)?;
        self.in_use[method] = new;
        if self.installed.push(receipt).is_err() {
            return Err(RunFault::NoMemory);
        }
        let reclaimed = reclaim(rt, self.shared, &mut self.coordinator, old, jobs)?;
        self.keep(old, reclaimed)?;
        Ok(())
    }

    // Keeps the receipt of a freed code, or the serial of a code that is left.
    fn keep(&mut self, serial: u64, freed: Option<Receipt<N>>) -> Result<(), RunFault>
        requires { IfSome freed (λ r. r.entry ≡ Entry.Free serial) }
        ensures kept { OnOk result (IsKeptBy serial freed self.old.freed self.old.left
            self.new.freed self.new.left) }
        ensures same { (self.new.in_use ≡ self.old.in_use)
            × (self.new.installed ≡ self.old.installed) }
    {
        match freed {
            Some(receipt) => {
                if self.freed.push(receipt).is_err() {
                    return Err(RunFault::NoMemory);
                }
            }
            None => {
                if self.left.push(serial).is_err() {
                    return Err(RunFault::NoMemory);
                }
            }
        }
        Ok(())
    }
}

// The jobs for live threads.
fn of_live<J: HandshakeOp>(jobs: Vec<J>, live: &[u64]) -> Vec<J>
    ensures { result.items ≡ filter (λ j. list_any (λ n. n == J.whom j) live.now) jobs.items }
{
    let mut jobs = jobs;
    jobs.retain(
        |job| -> bool
            ensures { result ≡ list_any (λ n. n == J.whom job.now) live.entry.now }
        { live.contains(&job.target_of()) },
    );
    jobs
}

// Installs a code for a method. Returns its serial and the receipt of its Install.
fn install<N: Name, J: HandshakeOp, R: Wait>(
    rt: &R,
    shared: &Shared<N, J>,
    method: usize,
) -> Result<(u64, Receipt<N>), RunFault>
    ensures { IfOk result (λ r. IsInstall method r.0 r.1) }
{
    let Ok(method) = u32::try_from(method) else {
        return Err(RunFault::Refused);
    };
    match shared.install(rt, method) {
        Ok(installed) => Ok(installed),
        Err(CodeFault::NoMemory | CodeFault::Install(InstallFault::NoMemory)) => {
            Err(RunFault::NoMemory)
        }
        Err(_) => Err(RunFault::Refused),
    }
}

// Invalidates a code. Returns the receipt of its Invalidate.
fn invalidate<N: Name, J: HandshakeOp, R: Wait>(
    rt: &R,
    shared: &Shared<N, J>,
    serial: u64,
) -> Result<Receipt<N>, RunFault>
    ensures { IfOk result (λ r. r.entry ≡ Entry.Invalidate serial) }
{
    match shared.invalidate(rt, serial) {
        Ok(receipt) => Ok(receipt),
        Err(_) => Err(RunFault::Refused),
    }
}

// Tries to reclaim a code. Returns the receipt of its Free if it is freed. The desk then forgets its history so far.
fn reclaim<N: Name, J: HandshakeOp, R: Wait>(
    rt: &R,
    shared: &Shared<N, J>,
    coordinator: &mut Coordinator<'_, N, J>,
    serial: u64,
    jobs: Vec<J>,
) -> Result<Option<Receipt<N>>, RunFault>
    ensures freed { IfOk result (λ said. IfSome said (λ r. r.entry ≡ Entry.Free serial)) }
    ensures left { IfOk result (λ said. IfNone said
        ((r : Reclaimed N) × IsReclaimed N.board.places serial r × IsLeft r)) }
{
    let reclaimed = coordinator.reclaim(rt, serial, jobs);
    shared.forget(rt);
    match reclaimed {
        Ok(Reclaimed::Freed(receipt)) => Ok(Some(receipt)),
        Ok(Reclaimed::Used(..) | Reclaimed::Late(..)) => Ok(None),
        Err(refused) => match refused.fault {
            ReclaimFault::Ask(AskFault::NoMemory) => Err(RunFault::NoMemory),
            _ => Err(RunFault::Refused),
        },
    }
}

// Tries to reclaim codes without jobs, and keeps the receipts of those that are freed.
fn reclaim_all<N: Name, J: HandshakeOp, R: Wait>(
    rt: &R,
    alloc: Global,
    shared: &Shared<N, J>,
    coordinator: &mut Coordinator<'_, N, J>,
    serials: &[u64],
    freed: &mut Vec<Receipt<N>>,
) -> Result<(), RunFault>
    ensures some { OnOk result (FreesSome serials.now freed.old.items freed.new.items) }
    ensures few { OnOk result (length freed.new.items ≤ length freed.old.items + length
        serials.now) }
{
    for serial in serials {
        let Some(receipt) = reclaim(rt, shared, coordinator, *serial, Vec::new(alloc))? else {
            continue;
        };
        if freed.push(receipt).is_err() {
            return Err(RunFault::NoMemory);
        }
    }
    Ok(())
}
