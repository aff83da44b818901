// The seats of a place. Each call is made only if it is legal.
ghost use Rattle.std.specs.Prelude.{◌≡◌, ◌≢◌, ◌<◌, ◌≤◌, [], pos, ◌≤ℤ◌, true};
ghost use Rattle.frames.specs.BoardRule.{code};
ghost use Rattle.frames.specs.BoardViews.{how_often, has_code};

use super::said::{Said, made, says, tells};
use board::{Board, ThreadSeat};
use bodies::Name;
use frames::CodeId;
use poll::{PollRow, Poller};
use std::marker::PhantomData;

// The number; 0 if it exceeds the greatest number of frames.
fn small(number: u64) -> i32
    ensures { (pos 0 ≤ℤ result) × (result ≤ℤ pos 256) }
{
    if number > 256 {
        return 0;
    }
    number as i32
}

// The seats of a place, and what later calls require of them. They count only the code of serial 1.
#[derive(Drop)]
pub struct Place<N: Name> {
    seat: ThreadSeat,
    poller: Poller,
    slot: u32,
    // Whether a publication has ended, and whether one is open.
    is_published: bool,
    is_begun: bool,
    // Whether the code was entered since the last publication.
    is_fresh: bool,
    is_uncounted: bool,
    counted: i32,
    of: PhantomData<N>,
    ghost tables: { (seat.board ≡ N.board) × (poller.table ≡ N.poll_row) × (slot < N.board.slots) },
    ghost published: { is_published ≡ true → seat.seen.stored ≢ 0 },
    ghost begun: { is_begun ≡ true → seat.seen.moment ≢ 0 },
    ghost fresh: { is_fresh ≡ true → has_code seat.seen.fresh (code slot 1) ≡ true },
    ghost uncounted: { is_uncounted ≡ true → seat.seen.counted ≡ [] },
    ghost count: { pos (how_often seat.seen.counted (code slot 1)) ≡ counted },
}

impl<N: Name> Place<N> {
    pub fn new(seat: ThreadSeat, poller: Poller, slot: u32) -> Place<N>
        requires tables { (seat.board ≡ N.board) × (poller.table ≡ N.poll_row) }
        requires slot { slot < N.board.slots }
        requires uncounted { seat.seen.counted ≡ [] }
    {
        Place {
            seat,
            poller,
            slot,
            is_published: false,
            is_begun: false,
            is_fresh: false,
            is_uncounted: true,
            counted: 0,
            of: PhantomData,
        }
    }

    fn begin(&mut self, board: &Board) -> bool
        requires { board.now ≡ N.board }
    {
        self.seat.read_moment(board);
        self.is_begun = true;
        true
    }

    fn end(&mut self, board: &Board) -> bool
        requires { board.now ≡ N.board }
    {
        if !self.is_begun {
            return false;
        }
        self.seat.end_publication(board);
        self.is_begun = false;
        self.is_fresh = false;
        self.is_published = true;
        true
    }

    // Whether the code of the serial may be entered.
    fn enter(&mut self, board: &Board, serial: u64) -> Option<bool>
        requires { board.now ≡ N.board }
    {
        if !self.is_published {
            return None;
        }
        let code = CodeId {
            slot: self.slot,
            serial,
        };
        let is_in = self.seat.enter(board, code);
        self.is_fresh = is_in && serial == 1;
        Some(is_in)
    }

    fn count(&mut self, board: &Board, by: i32) -> bool
        requires { board.now ≡ N.board }
    {
        if !self.is_begun || by == 0 || by < -256 || by > 256 {
            return false;
        }
        if by > 0 && !self.is_fresh {
            return false;
        }
        let after = self.counted.wrapping_add(by);
        if after < 0 || after > 256 {
            return false;
        }
        let code = CodeId {
            slot: self.slot,
            serial: 1,
        };
        self.seat.count_change(board, code, by);
        self.counted = after;
        self.is_uncounted = false;
        true
    }

    fn vacate(&mut self, board: &Board) -> bool
        requires { board.now ≡ N.board }
    {
        if !self.is_uncounted {
            return false;
        }
        self.seat.vacate(board);
        self.is_published = false;
        self.is_begun = false;
        self.is_fresh = false;
        true
    }

    // Whether the number was found.
    fn clear(&mut self, row: &PollRow, n: u64) -> Option<bool>
        requires { row.now ≡ N.poll_row }
    {
        if n == 0 {
            return None;
        }
        Some(self.poller.clear(row, n))
    }

    pub fn play(&mut self, board: &Board, row: &PollRow, call: &str, more: u64) -> Option<Said>
        requires { (board.now ≡ N.board) × (row.now ≡ N.poll_row) }
    {
        match call {
            "poll" => {
                let found = self.poller.poll(row);
                if found == 0 {
                    says("go")
                } else {
                    tells("stop ", found)
                }
            }
            "clear" => {
                let is_found = self.clear(row, more)?;
                says(if is_found { "ok" } else { "kept" })
            }
            _ => self.step(board, call, more),
        }
    }

    fn step(&mut self, board: &Board, call: &str, more: u64) -> Option<Said>
        requires { board.now ≡ N.board }
    {
        match call {
            "begin" => made(self.begin(board), "ok"),
            "end" => made(self.end(board), "ok"),
            "enter" => {
                let is_in = self.enter(board, more)?;
                says(if is_in { "entered" } else { "wrong method" })
            }
            "count" if self.count(board, small(more)) => tells("change 1 +", more),
            "uncount" if self.count(board, -small(more)) => tells("change 1 -", more),
            "vacate" => made(self.vacate(board), "ok"),
            _ => None,
        }
    }
}
