// A party as C holds it.
ghost use Rattle.std.specs.Prelude.{◌≡◌, ℕ, OnOk, OnErr, IfOk, Option, Some, None, is_some, true, false};
ghost use Rattle.board.specs.Boards.{BoardId};
ghost use Rattle.poll.specs.Rows.{RowId};
ghost use Rattle.stopped_threads.specs.Holding.{held_nothing};
ghost use Rattle.parties.specs.Acted.{party_as};
ghost use Rattle.safepoint.specs.Held.{Seen, held_owns, board_coded, row_coded, held_coded};
ghost use Rattle.safepoint.specs.Told.{Obeys, Answers, Forks, Arises, Begins, IsBegun, IsFresh};

use crate::raw_box::RawBox;
use bodies::Name;
use coordinator_core::CoordinatorCore;
use parties::acts::{Act, Fault};
use parties::party::{Party, Role};
use parties::system::SharedSystem;
use std::alloc::Global;
use std::marker::{Brand, Model};
use std::mem::replace;
use std::ptr::null_mut;
use std::sync::Arc;
use thread_list::Parts;

/// A pointer to a boxed party of any system, or none.
#[repr(C)]
#[derive(Drop)]
pub struct Handle {
    at: *mut u8,
    alloc: Global,
    pub ghost board: { BoardId } by { board_coded },
    pub ghost row: { RowId } by { row_coded },
    pub ghost value: { Option Seen } by { held_coded },
}

impl Model for Handle {
    ghost also_owns = { λ h. held_owns h.alloc h.at h.board h.row h.value };
}

// Another party of the same system, and whether there was memory for it.
fn fork<N: Name>(
    parts: RawBox<Party<N>, Global>,
) -> (RawBox<Party<N>, Global>, (RawBox<Party<N>, Global>, bool))
    requires { is_some parts.value ≡ true }
    ensures { Forks parts.value result.0.value result.1.0.value result.1.1 }
{
    let party = parts.into_box();
    let other = fork_box(&party);
    (RawBox::of(party), other)
}

fn fork_box<N: Name>(party: &Party<N>) -> (RawBox<Party<N>, Global>, bool)
    ensures { Arises result.0.value result.1 }
{
    let alloc = party.alloc();
    match party.fork() {
        Ok(other) => boxed(alloc, other),
        Err(_) => (RawBox::none(alloc), false),
    }
}

fn boxed<N: Name>(alloc: Global, party: Party<N>) -> (RawBox<Party<N>, Global>, bool)
    requires { party ≡ party_as Role.Shares }
    ensures { Arises result.0.value result.1 }
{
    match Box::new(alloc, party) {
        Ok(boxed) => (RawBox::of(boxed), true),
        Err(_) => (RawBox::none(alloc), false),
    }
}

// The coordinator of a new system of these parts, and whether there was memory for it.
fn make<N: Name>(alloc: Global, parts: Parts) -> (RawBox<Party<N>, Global>, bool)
    requires { (parts.board ≡ N.board) × (parts.row ≡ N.poll_row) }
    ensures { Begins N.board N.poll_row result.0.value result.1 }
{
    let Ok((system, armer)) = SharedSystem::<N>::new(alloc, parts) else {
        return (RawBox::none(alloc), false);
    };
    let Ok(steps) = CoordinatorCore::new(alloc, armer, system.row()) else {
        return (RawBox::none(alloc), false);
    };
    match Arc::new(alloc, system) {
        Ok(shared) => begun(alloc, shared, steps),
        Err(_) => (RawBox::none(alloc), false),
    }
}

fn begun<N: Name>(
    alloc: Global,
    system: Arc<SharedSystem<N>>,
    steps: CoordinatorCore<N>,
) -> (RawBox<Party<N>, Global>, bool)
    requires { steps ≡ held_nothing N.poll_row N.board.places }
    ensures { Begins N.board N.poll_row result.0.value result.1 }
{
    let party = Party::coordinator(alloc, system, steps);
    match Box::new(alloc, party) {
        Ok(boxed) => (RawBox::of(boxed), true),
        Err(_) => (RawBox::none(alloc), false),
    }
}

fn free<N: Name>(parts: RawBox<Party<N>, Global>) -> bool
    requires { is_some parts.value ≡ true }
    ensures { result ≡ true }
{
    drop(parts.into_box());
    true
}

impl Handle {
    // Does an act of the party, in place.
    #[inline(always)]
    fn dispatch(&mut self, act: Act) -> Result<u64, Fault>
        requires { is_some self.old.value ≡ true }
        ensures { Obeys self.old.board.places self.old.value act result self.new.value
            × (self.new.board ≡ self.old.board)
            × (self.new.row ≡ self.old.row) }
    {
        let at = self.at as *mut Party<Brand>;
        let party = unsafe { &mut *at };
        party.act(act)
    }

    fn fork(self) -> (Handle, (Handle, bool))
        requires { is_some self.value ≡ true }
        ensures { Forks self.value result.0.value result.1.0.value result.1.1
            × (result.0.board ≡ self.board) × (result.0.row ≡ self.row)
            × (result.1.0.board ≡ self.board) × (result.1.0.row ≡ self.row) }
    {
        let Handle { at, alloc } = self;
        let (parts, more) = fork::<Brand>(RawBox {
            at: at as *mut Party<Brand>,
            alloc,
        });
        let (other, made) = more;
        let RawBox { at, alloc } = parts;
        let back = Handle {
            at: at as *mut u8,
            alloc,
        };
        let RawBox { at, alloc } = other;
        let kept = Handle {
            at: at as *mut u8,
            alloc,
        };
        (back, (kept, made))
    }

    fn make(alloc: Global, parts: Parts) -> (Handle, bool)
        ensures { Begins result.0.board result.0.row result.0.value result.1
            × (result.0.board ≡ parts.board) }
    {
        let (other, made) = make::<Brand>(alloc, parts);
        let RawBox { at, alloc } = other;
        let kept = Handle {
            at: at as *mut u8,
            alloc,
        };
        (kept, made)
    }

    fn free(self) -> bool
        requires { is_some self.value ≡ true }
        ensures { result ≡ true }
    {
        let Handle { at, alloc } = self;
        free::<Brand>(RawBox {
            at: at as *mut Party<Brand>,
            alloc,
        })
    }

    fn none(alloc: Global) -> Handle
        ensures { result.value ≡ None }
    {
        Handle {
            at: null_mut(),
            alloc,
        }
    }
}

/// The memory of a party in C. All zeros, it has no party.
#[repr(C)]
#[derive(Drop)]
pub struct CHandle {
    made: bool,
    pub handle: Handle,
    pub ghost tied: { made ≡ is_some handle.value },
}

impl CHandle {
    pub(crate) fn is_made(&self) -> bool
        ensures { result ≡ is_some self.now.handle.value }
    {
        self.made
    }

    #[inline(always)]
    fn none(alloc: Global) -> CHandle
        ensures { result.handle.value ≡ None }
    {
        CHandle {
            made: false,
            handle: Handle::none(alloc),
        }
    }

    #[inline(always)]
    fn take(&mut self, alloc: Global) -> Handle
        ensures party { (result.value ≡ self.old.handle.value)
            × (result.board ≡ self.old.handle.board) × (result.row ≡ self.old.handle.row) }
        ensures none { self.new.handle.value ≡ None }
    {
        replace(self, CHandle::none(alloc)).handle
    }

    #[inline(always)]
    fn put(&mut self, handle: Handle, made: bool)
        requires { is_some handle.value ≡ made }
        ensures { (self.new.handle.value ≡ handle.value) × (self.new.handle.board ≡ handle.board)
            × (self.new.handle.row ≡ handle.row) }
    {
        *self = CHandle { made, handle };
    }

    /// Does an act of the party. Refused with `NotThis` without one.
    #[inline(always)]
    pub(crate) fn dispatch(&mut self, act: Act) -> Result<u64, Fault>
        ensures said { Answers self.old.handle.board.places self.old.handle.value act result
            self.new.handle.value }
        ensures same { (self.new.handle.board ≡ self.old.handle.board)
            × (self.new.handle.row ≡ self.old.handle.row) }
    {
        if !self.made {
            return Err(Fault::NotThis);
        }
        self.handle.dispatch(act)
    }

    /// Puts another party of the same system into `other`.
    pub(crate) fn fork(&mut self, alloc: Global, other: &mut CHandle) -> Result<u64, Fault>
        requires { is_some other.old.handle.value ≡ false }

        ensures kept { self.new.handle.value ≡ self.old.handle.value }
        ensures zero { IfOk result (λ n. n ≡ 0) }
        ensures fresh { OnOk result (IsFresh other.new.handle.value) }
        ensures none { OnErr result (is_some other.new.handle.value ≡ false) }
        ensures same { OnOk result ((other.new.handle.board ≡ self.old.handle.board)
            × (other.new.handle.row ≡ self.old.handle.row)) }
    {
        if !self.made {
            return Err(Fault::NotThis);
        }
        let (handle, more) = self.take(alloc).fork();
        let (forked, made) = more;
        self.put(handle, true);
        other.put(forked, made);
        if made { Ok(0) } else { Err(Fault::NoMemory) }
    }

    pub(crate) fn make(&mut self, alloc: Global, parts: Parts) -> Result<u64, Fault>
        ensures zero { IfOk result (λ n. n ≡ 0) }
        ensures begun { OnOk result
            (IsBegun self.new.handle.board self.new.handle.row self.new.handle.value
            × (self.new.handle.board ≡ parts.board)) }
        ensures none { OnErr result (is_some self.new.handle.value ≡ false) }
    {
        let (handle, made) = Handle::make(alloc, parts);
        self.put(handle, made);
        if made { Ok(0) } else { Err(Fault::NoMemory) }
    }

    pub(crate) fn free(&mut self, alloc: Global)
        ensures { self.new.handle.value ≡ None }
    {
        if self.made {
            let _ = self.take(alloc).free();
        }
    }
}
