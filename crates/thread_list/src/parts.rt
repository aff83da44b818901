//! The parts of a system of running threads.
ghost use Rattle.std.specs.Prelude.{◌≡◌, ◌≤◌, ◌<◌, ℕ, [], ◌∷◌, Some, length, slice_get, vec_len, vec_capacity, All, IfOk, IfErr, OnOk};
ghost use Rattle.board.specs.Boards.{first_keeper};
ghost use Rattle.poll.specs.Rows.{full_armer};
ghost use Rattle.berths.specs.Berths.{IsRoom};
ghost use Rattle.thread_list.specs.Sharing.{AreInOrder, IsNewDesk, places_in};
ghost use Rattle.thread_list.specs.Sized.{parts_refused, AreSeatsOf, ArePollersOf, seats_in, pollers_in};

use crate::hints::Hints;
use crate::shared::Shared;
use berths::{Berth, Guarded, JOBS, Room};
use board::{Board, Keeper, ThreadSeat};
use bodies::{Name, Seats, SpareSeat};
use desk::Desk;
use method_table::table::MethodTable;
use operations::job::HandshakeOp;
use poll::{Armer, PollRow, Poller};
use std::alloc::{AllocError, Global};
use std::collections::VecDeque;
use std::marker::Model;
use std::sync::Condvar;
use std::sync::atomic::AtomicU64;

/// The most places, slots and methods that a system has.
pub const MOST_PLACES: usize = 64;

pub const MOST_SLOTS: usize = 1024;

pub const MOST_METHODS: usize = 256;

/// Why no parts are made, in the order of the tests.
#[derive(Clone, Copy, PartialEq, Eq, Debug, Drop)]
pub enum PartsFault {
    /// A size is 0, or above its limit.
    BadSize,
    NoMemory,
}

/// The words of a system and the seats that access them, before anything shares them. Contracts see which board and row they are,
/// and how many methods there are.
#[derive(Drop)]
pub struct Parts {
    board: Board,
    keeper: Keeper,
    row: PollRow,
    armer: Armer,
    seats: Vec<Seats>,
    slots: u32,
    methods: u32,
}

impl Model for Parts {
    ghost use Rattle.std.specs.Prelude.{◌≡◌, length};
    ghost use Rattle.board.specs.Boards.{first_keeper};
    ghost use Rattle.poll.specs.Rows.{full_armer};
    ghost use Rattle.thread_list.specs.Sized.{PartsSeen, AreSeatsOf, ArePollersOf, seats_in, pollers_in};

    ghost Value = { PartsSeen };

    ghost view = { λ p. record { board = p.board; row = p.row; methods = p.methods } };

    ghost invariant = { λ p. (p.keeper ≡ first_keeper p.board)
        × (p.armer ≡ full_armer p.row p.board.places) × AreSeatsOf p.board (seats_in p.seats.items)
        × ArePollersOf p.row (pollers_in p.seats.items) × (length p.seats.items ≡ p.board.places)
        × (p.slots ≡ p.board.slots) };
}

impl Parts {
    /// The parts of a system of so many places (1 to 64), slots for codes (1 to 1024) and methods (1 to 256).
    pub fn new(
        alloc: Global,
        places: usize,
        slots: usize,
        methods: usize,
    ) -> Result<Parts, PartsFault>
        ensures sizes { IfOk result (λ p. (p.board.places ≡ places) × (p.board.slots ≡ slots)
            × (p.methods ≡ methods)) }
        ensures refused { IfErr result (parts_refused places slots methods) }
    {
        if !(fits(places, MOST_PLACES) && fits(slots, MOST_SLOTS) && fits(methods, MOST_METHODS)) {
            return Err(PartsFault::BadSize);
        }
        let Ok((board, keeper, seats)) = Board::new(alloc, places, slots) else {
            return Err(PartsFault::NoMemory);
        };
        let Ok((row, armer, pollers)) = PollRow::new(alloc, places) else {
            return Err(PartsFault::NoMemory);
        };
        let Ok(seats) = seats_of(alloc, seats, pollers) else {
            return Err(PartsFault::NoMemory);
        };
        Ok(Parts {
            board,
            keeper,
            row,
            armer,
            seats,
            slots: slots as u32,
            methods: methods as u32,
        })
    }
}

// Whether a system can have this size.
fn fits(size: usize, most: usize) -> bool
    ensures { result ≡ Rattle.thread_list.specs.Sized.fits size most }
{
    size != 0 && size <= most
}

// Empty lists with room for the jobs of a place each, and room for as many rooms.
fn job_lists<N: Name, J: HandshakeOp>(
    alloc: Global,
    places: usize,
) -> Result<(Vec<Vec<J>>, Vec<Room<N, J>>), AllocError>
    ensures lists { IfOk result (λ r. (vec_len r.0 ≡ places) × All IsRoom r.0.items) }
    ensures rooms { IfOk result (λ r. (vec_len r.1 ≡ 0) × (places ≤ vec_capacity r.1)) }
{
    let rooms = Vec::with_capacity(alloc, places)?;
    let mut lists = Vec::new(alloc);
    while lists.len() < places {
        let list = Vec::with_capacity(alloc, JOBS)?;
        lists.push(list).map_err(|_| AllocError)?;
    }
    Ok((lists, rooms))
}

// Each seat with its poller, in order, each pair in its own box. The boxes are allocated one after another, so that they lie side
// by side.
fn seats_of(
    alloc: Global,
    seats: Vec<ThreadSeat>,
    pollers: Vec<Poller>,
) -> Result<Vec<Seats>, AllocError>
    requires count { length seats.items ≡ length pollers.items }
    ensures seats { IfOk result (λ v. seats_in v.items ≡ seats.items) }
    ensures pollers { IfOk result (λ v. pollers_in v.items ≡ pollers.items) }
{
    let mut all = Vec::with_capacity(alloc, seats.len())?;
    let mut seats = VecDeque::from_vec(seats);
    let mut pollers = VecDeque::from_vec(pollers);
    while let Some(seat) = seats.pop_front() {
        let Some(poller) = pollers.pop_front() else {
            unreachable!()
        };
        let both = Seats::new(alloc, seat, poller)?;
        all.push(both).map_err(|_| AllocError)?;
    }
    Ok(all)
}

// A room for each place's seats, without a name.
fn rooms_of<N: Name, J: HandshakeOp>(
    seats: Vec<Seats>,
    lists: Vec<Vec<J>>,
    room: Vec<Room<N, J>>,
) -> Vec<Room<N, J>>
    requires seats { AreSeatsOf N.board (seats_in seats.items) }
    requires pollers { ArePollersOf N.poll_row (pollers_in seats.items) }
    requires count { length seats.items ≡ vec_len lists }
    requires lists { All IsRoom lists.items }
    requires room { (vec_len room ≡ 0) × (length seats.items ≤ vec_capacity room) }

    ensures count { length result.items ≡ length seats.items }
    ensures order { AreInOrder (places_in result.items) }
{
    let mut seats = seats;
    let mut lists = lists;
    let mut rooms = room;
    while let Some(both) = seats.pop() {
        let Some(jobs) = lists.pop() else {
            unreachable!()
        };
        let pair = SpareSeat::new(both);
        rooms.push_reserved(Room::new(pair.place(), pair, jobs));
    }
    rooms.reverse();
    rooms
}

// Each room in a berth of its own, in order.
fn berths_of<N: Name, J: HandshakeOp>(
    rooms: Vec<Room<N, J>>,
    berths: Vec<Berth<N, J>>,
) -> Vec<Berth<N, J>>
    requires room { (vec_len berths ≡ 0) × (length rooms.items ≤ vec_capacity berths) }
    ensures { result.items ≡ places_in rooms.items }
{
    let mut rooms = VecDeque::from_vec(rooms);
    let mut berths = berths;
    while let Some(room) = rooms.pop_front() {
        berths.push_reserved(Berth::new(room));
    }
    berths
}

/// The threads' shared state before any of it is under a lock: the words, a room for each place in order, a new desk, the hints,
/// and the armer of the poll words.
pub struct Pieces<N: Name, J: HandshakeOp> {
    pub board: Board,
    pub row: PollRow,
    pub rooms: Vec<Room<N, J>>,
    pub desk: Desk<N, J>,
    pub hints: Hints,
    pub armer: Armer,
}

impl Parts {
    /// Makes the pieces of the shared state from these parts. If memory is refused, the parts are handed back.
    pub fn into_pieces<N: Name, J: HandshakeOp>(self, alloc: Global) -> Result<Pieces<N, J>, Parts>
        requires tables { (self.board ≡ N.board) × (self.row ≡ N.poll_row) }

        ensures words { IfOk result (λ p. (p.board ≡ N.board) × (p.row ≡ N.poll_row)) }
        ensures rooms { IfOk result (λ p. length p.rooms.items ≡ N.board.places) }
        ensures order { IfOk result (λ p. AreInOrder (places_in p.rooms.items)) }
        ensures desk { IfOk result (λ p. IsNewDesk N.board self.methods p.desk) }
        ensures slots { IfOk result (λ p. p.hints.slots ≡ N.board.slots) }
        ensures methods { IfOk result (λ p. p.hints.methods ≡ self.methods) }
        ensures armer { IfOk result (λ p. p.armer ≡ full_armer N.poll_row N.board.places) }

        ensures handed_back { IfErr result (λ p. p ≡ self) }
    {
        let places = self.seats.len();
        let Ok((lists, room)) = job_lists(alloc, places) else {
            return Err(self);
        };
        let Ok(hints) = Hints::new(alloc, self.methods, self.slots) else {
            return Err(self);
        };
        let Ok(table) = MethodTable::new(alloc, self.slots, self.methods) else {
            return Err(self);
        };
        let Parts {
            board,
            keeper,
            row,
            armer,
            seats,
            slots,
            methods,
        } = self;
        match Desk::new(alloc, table, keeper, &board, places) {
            Ok(desk) => Ok(Pieces {
                board,
                row,
                rooms: rooms_of(seats, lists, room),
                desk,
                hints,
                armer,
            }),
            Err(keeper) => Err(Parts {
                board,
                keeper,
                row,
                armer,
                seats,
                slots,
                methods,
            }),
        }
    }

    // How many places there are.
    fn places(&self) -> usize
        ensures { result ≡ self.now.board.places }
    {
        self.seats.len()
    }
}

impl<N: Name, J: HandshakeOp> Shared<N, J> {
    /// Makes the threads' shared state from these parts, and the armer of their poll words. If memory is refused, the parts are
    /// handed back.
    pub fn new(alloc: Global, parts: Parts) -> Result<(Shared<N, J>, Armer), Parts>
        requires tables { (parts.board ≡ N.board) × (parts.row ≡ N.poll_row) }
        ensures armer { IfOk result (λ r. r.1 ≡ full_armer N.poll_row N.board.places) }
        ensures methods { IfOk result (λ r. r.0.methods ≡ parts.methods) }
        ensures handed_back { IfErr result (λ p. p ≡ parts) }
    {
        let Ok(room) = Vec::with_capacity(alloc, parts.places()) else {
            return Err(parts);
        };
        let Pieces {
            board,
            row,
            rooms,
            desk,
            hints,
            armer,
        } = parts.into_pieces(alloc)?;
        let (desk, begun) = Guarded::new(desk);
        let shared = Shared {
            board,
            row,
            berths: berths_of(rooms, room),
            desk,
            begun,
            hints,
            waiters: AtomicU64::new(0),
            finished: Condvar::new(),
        };
        Ok((shared, armer))
    }
}
