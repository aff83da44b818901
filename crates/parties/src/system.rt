//! The system that parties share.
ghost use Rattle.std.specs.Prelude.{◌≡◌, ◌<◌, IfOk, IfSome, length};
ghost use Rattle.poll.specs.Rows.{full_armer};
ghost use Rattle.thread_list.specs.Sharing.{places_in};

use crate::tried_lock::{Guard, TriedLock};
use berths::Room;
use board::Board;
use bodies::Name;
use desk::Desk;
use frames::CodeId;
use operations::job::Query;
use poll::{Armer, PollRow};
use std::alloc::{AllocError, Global};
use std::collections::VecDeque;
use std::marker::Model;
use std::snapshot::Snapshot;
use thread_list::{Hints, Parts, Pieces};

/// A room under its own lock. Contracts see its place.
#[derive(Drop)]
struct LockedRoom<N: Name> {
    place: Snapshot<usize>,
    lock: TriedLock<Box<Room<N, Query>>>,
}

impl<N: Name> Model for LockedRoom<N> {
    ghost use Rattle.std.specs.Prelude.{ℕ};

    ghost Value = { ℕ };

    ghost view = { λ r. r.place.value };
}

impl<N: Name> LockedRoom<N> {
    fn of(alloc: Global, room: Room<N, Query>) -> Result<LockedRoom<N>, AllocError>
        ensures { IfOk result (λ r. r ≡ room.place) }
    {
        let place = room.place();
        let boxed = Box::new(alloc, room)?;
        Ok(LockedRoom {
            place: Snapshot::of(&place),
            lock: TriedLock::new(alloc, boxed)?,
        })
    }
}

/// The words, the desk under a lock, and a room for each place in order, each under its own lock. Contracts see the
/// number of methods.
#[derive(Drop)]
pub struct SharedSystem<N: Name> {
    board: Board,
    row: PollRow,
    rooms: Vec<LockedRoom<N>>,
    desk: TriedLock<Box<Desk<N, Query>>>,
    hints: Hints,
}

impl<N: Name> Model for SharedSystem<N> {
    ghost use Rattle.std.specs.Prelude.{◌≡◌, length};
    ghost use Rattle.thread_list.specs.Sharing.{AreInOrder};
    ghost use Rattle.parties.specs.Systems.{SystemSeen};

    ghost Value = { SystemSeen };

    ghost view = { λ s. record { methods = s.hints.methods } };

    ghost invariant = { λ s. (s.board ≡ N.board) × (s.row ≡ N.poll_row)
        × (length s.rooms.items ≡ N.board.places) × AreInOrder s.rooms.items
        × (s.hints.slots ≡ N.board.slots) };
}

// Puts a lock around each room, in order.
fn locked_rooms<N: Name>(
    alloc: Global,
    rooms: Vec<Room<N, Query>>,
) -> Result<Vec<LockedRoom<N>>, AllocError>
    ensures count { IfOk result (λ locks. length locks.items ≡ length rooms.items) }
    ensures order { IfOk result (λ locks. locks.items ≡ places_in rooms.items) }
{
    let mut locks = Vec::with_capacity(alloc, rooms.len())?;
    let mut rooms = VecDeque::from_vec(rooms);
    while let Some(room) = rooms.pop_front() {
        let locked = LockedRoom::of(alloc, room)?;
        locks.push(locked).map_err(|_| AllocError)?;
    }
    Ok(locks)
}

impl<N: Name> SharedSystem<N> {
    /// Makes a system of these parts, and the armer of its poll words. Refused only if memory is refused.
    pub fn new(alloc: Global, parts: Parts) -> Result<(SharedSystem<N>, Armer), AllocError>
        requires tables { (parts.board ≡ N.board) × (parts.row ≡ N.poll_row) }
        ensures armer { IfOk result (λ r. r.1 ≡ full_armer N.poll_row N.board.places) }
        ensures methods { IfOk result (λ r. r.0.methods ≡ parts.methods) }
    {
        let Ok(pieces) = parts.into_pieces::<N, Query>(alloc) else {
            return Err(AllocError);
        };
        let Pieces {
            board,
            row,
            rooms,
            desk,
            hints,
            armer,
        } = pieces;
        let rooms = locked_rooms(alloc, rooms)?;
        let boxed = Box::new(alloc, desk)?;
        let desk = TriedLock::new(alloc, boxed)?;
        Ok((
            SharedSystem {
                board,
                row,
                rooms,
                desk,
                hints,
            },
            armer,
        ))
    }

    #[inline(always)]
    pub fn board(&self) -> &Board
        ensures { result.now ≡ N.board }
    {
        &self.board
    }

    #[inline(always)]
    pub fn row(&self) -> &PollRow
        ensures { result.now ≡ N.poll_row }
    {
        &self.row
    }

    /// Returns the number of places.
    pub fn places(&self) -> usize
        ensures { result ≡ N.board.places }
    {
        self.rooms.len()
    }

    #[inline(always)]
    pub fn methods(&self) -> u32
        ensures { result ≡ self.now.methods }
    {
        self.hints.methods()
    }

    #[inline(always)]
    pub fn hint(&self, method: u32) -> Option<CodeId>
        ensures { IfSome result (λ c. c.slot < N.board.slots) }
    {
        self.hints.of(method)?
    }

    pub fn set_hint(&self, method: u32, code: CodeId) {
        self.hints.set(method, code);
    }

    /// Returns the desk, unless its lock is taken.
    #[inline(always)]
    pub fn try_desk(&self) -> Option<Guard<'_, Box<Desk<N, Query>>>> {
        self.desk.try_lock()
    }

    /// Returns the room of a place, unless its lock is taken.
    #[inline(always)]
    pub fn try_room(&self, place: usize) -> Option<Guard<'_, Box<Room<N, Query>>>>
        requires { place < N.board.places }
    {
        self.rooms[place].lock.try_lock()
    }
}
