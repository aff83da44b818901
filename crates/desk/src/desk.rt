//! The desk: one history of all that threads and clients ask of the coordinator.
ghost use Rattle.std.specs.Prelude.{◌≡◌, ◌+◌, ◌^◌, [], true, nat_le, IfOk, IfErr};
ghost use Rattle.board.specs.Boards.{first_keeper};
ghost use Rattle.desk.specs.CodeBoard.{AreEntries};
ghost use Rattle.desk.specs.Machine.{is_legal};
ghost use Rattle.desk.specs.Refusals.{is_idle};
ghost use Rattle.desk.specs.Fields.{at};

use crate::codes::Codes;
use crate::entries::{Carried, Live, Opened};
use crate::lists::{OPEN, is_idle};
use crate::log::Log;
use crate::names::DueRoom;
use board::{Board, Keeper};
use bodies::Name;
use method_table::table::MethodTable;
use operations::job::HandshakeOp;
use operations::queue::Queue;
use std::alloc::Global;
use std::marker::Model;

/// The desk. The fields that a Finish touches come first, in their order in memory after the desk's lock, since the
/// thread that enters a Finish finds these cache lines at another processor.
#[derive(Drop)]
pub struct Desk<N: Name, J: HandshakeOp> {
    pub(crate) alloc: Global,
    pub(crate) opened: Vec<Opened<J>>,
    pub(crate) live: Vec<Live>,
    pub(crate) log: Log<N>,
    pub(crate) places: usize,
    pub(crate) next_name: u64,
    pub(crate) next_number: u64,
    pub(crate) queue: Queue<Carried<J>>,
    /// Memory for the due names of the last closed request. The next submitted request reuses it.
    pub(crate) spare: DueRoom,
    pub(crate) codes: Codes<N>,
}

impl<N: Name, J: HandshakeOp> Model for Desk<N, J> {
    ghost use Rattle.std.specs.Prelude.{map, vec_len, vec_capacity};
    ghost use Rattle.desk.specs.Fields.{DeskSeen, IsDesk, jobs_left};

    ghost Value = { DeskSeen };

    ghost view = { λ d. record {
      book = d.log.book;
      slots = d.codes.table.slots;
      methods = d.codes.table.methods;
      keeper = d.codes.keeper;
      jobs = map (jobs_left J.whom) d.opened.items;
    } };

    ghost invariant = { λ d. IsDesk J.whom N.board.places (record {
      fields = record {
        book = d.log.book;
        next_name = d.next_name;
        live = d.live.items;
        next_number = d.next_number;
        queue = d.queue;
        opened = d.opened.items;
        table = d.codes.table;
      };
      lists = d.log.lists;
      places = d.places;
      open_count = vec_len d.opened;
      open_capacity = vec_capacity d.opened;
    }) };
}

impl<N: Name, J: HandshakeOp> Desk<N, J> {
    /// Makes an empty desk.
    ///
    /// # Errors
    /// Memory is refused, and the keeper is returned.
    pub fn new(
        alloc: Global,
        table: MethodTable,
        keeper: Keeper,
        board: &Board,
        places: usize,
    ) -> Result<Desk<N, J>, Keeper>
        requires board { board.now ≡ N.board }
        requires keeper { keeper ≡ first_keeper board.now }
        requires table { (table.codes ≡ []) × (table.slots ≡ N.board.slots) }
        requires places { places ≡ N.board.places }

        ensures book { IfOk result (λ d. (d.book.history ≡ []) × (d.book.reserved ≡ 0)) }
        ensures gone { IfOk result (λ d. (d.book.gone.entries ≡ 0) × (d.book.gone.operations ≡ 0)) }
        ensures sizes { IfOk result (λ d. (d.slots ≡ table.slots) × (d.methods ≡ table.methods)) }
        ensures keeper { IfOk result (λ d. d.keeper ≡ keeper.seen) }
        ensures jobs { IfOk result (λ d. d.jobs ≡ []) }

        ensures handed_back { IfErr result (λ k. k ≡ keeper) }
    {
        let Ok(opened) = Vec::with_capacity(alloc, OPEN) else {
            return Err(keeper);
        };
        Ok(Desk {
            alloc,
            places,
            next_name: 1,
            live: Vec::new(alloc),
            next_number: 1,
            queue: Queue::new(alloc),
            opened,
            spare: DueRoom::new(alloc),
            codes: Codes::new(table, keeper, board),
            log: Log::new(alloc),
        })
    }

    /// Law: the method table and the keeper's view agree.
    pub fn codes_are_entries(&self)
        ensures { AreEntries (at self.now).table self.now.keeper }
    {
        self.codes.are_entries();
    }

    /// Returns whether no request is open or waits.
    pub fn is_idle(&self) -> bool
        ensures { result ≡ is_idle (at self.now) }
    {
        is_idle(self.opened.as_slice(), &self.queue)
    }

    /// Returns whether the current moment (epoch) is the last one.
    pub fn is_last_moment(&self) -> bool
        ensures { result ≡ nat_le (2 ^ 40) (self.now.keeper.moment + 1) }
    {
        self.codes.is_last_moment()
    }

    /// Law: the history is legal.
    pub fn history_is_legal(&self)
        ensures { is_legal self.now.slots self.now.methods self.now.book.history ≡ true }
    {
        // This use makes the invariant known to the proof.
        let _ = &self.log;
    }
}
