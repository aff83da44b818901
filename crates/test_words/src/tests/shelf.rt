// The keeper of a board. Its calls for one slot are made only where they are legal.
ghost use Rattle.std.specs.Prelude.{◌≡◌, ◌<◌};
ghost use Rattle.frames.specs.BoardRule.{code};
ghost use Rattle.frames.specs.BoardViews.{slot_of};
ghost use Rattle.board.specs.Boards.{first_keeper};

use super::said::{Said, made, says, tells};
use board::{Board, Keeper, Weighed};
use bodies::Name;
use frames::CodeId;
use frames::board_rule::EntryState;
use std::marker::PhantomData;

fn said_of(weighed: Weighed) -> Option<Said> {
    match weighed {
        Weighed::NotLooked(place) => tells("not looked ", place as u64),
        Weighed::Used(n) => tells("used ", n),
        Weighed::Clear => says("retired"),
    }
}

// A keeper, with the code and the state in which its calls left the slot.
#[derive(Drop)]
pub struct Shelf<N: Name> {
    keeper: Keeper,
    places: usize,
    slot: u32,
    serial: u64,
    state: EntryState,
    of: PhantomData<N>,
    ghost board: { (keeper.board ≡ N.board) × (slot < N.board.slots) × (places ≡ N.board.places) },
    ghost code: { ((slot_of keeper.seen slot).serial ≡ serial) × ((slot_of keeper.seen slot).state ≡ state) },
}

impl<N: Name> Shelf<N> {
    pub fn new(keeper: Keeper, places: usize, slot: u32) -> Shelf<N>
        requires keeper { keeper ≡ first_keeper N.board }
        requires places { places ≡ N.board.places }
        requires slot { slot < N.board.slots }
    {
        Shelf {
            keeper,
            places,
            slot,
            serial: 0,
            state: EntryState::Vacant,
            of: PhantomData,
        }
    }

    fn code(&self) -> CodeId
        ensures { result ≡ code self.now.slot self.now.serial }
    {
        CodeId {
            slot: self.slot,
            serial: self.serial,
        }
    }

    fn install(&mut self, board: &Board, serial: u64) -> bool
        requires { board.now ≡ N.board }
    {
        if !matches!(self.state, EntryState::Vacant) || serial <= self.serial || serial > 1000 {
            return false;
        }
        let code = CodeId {
            slot: self.slot,
            serial,
        };
        self.keeper.install(board, code);
        self.serial = serial;
        self.state = EntryState::InUse;
        true
    }

    fn invalidate(&mut self, board: &Board) -> bool
        requires { board.now ≡ N.board }
    {
        if !matches!(self.state, EntryState::InUse) {
            return false;
        }
        let code = self.code();
        self.keeper.invalidate(board, code);
        self.state = EntryState::NotEntrant;
        true
    }

    fn round(&mut self, board: &Board) -> bool
        requires { board.now ≡ N.board }
    {
        self.keeper.round(board).is_ok()
    }

    // Whether the place is covered for the code.
    fn look(&mut self, board: &Board, place: usize) -> Option<bool>
        requires { board.now ≡ N.board }
    {
        if place >= self.places || !matches!(self.state, EntryState::NotEntrant) {
            return None;
        }
        let code = self.code();
        Some(self.keeper.look(board, code, place))
    }

    // Weighs the code, and retires it if no activation is left.
    fn weigh(&mut self, board: &Board) -> Option<Weighed>
        requires { board.now ≡ N.board }
    {
        if !matches!(self.state, EntryState::NotEntrant) {
            return None;
        }
        let code = self.code();
        let weighed = self.keeper.weigh(board, code);
        if matches!(weighed, Weighed::Clear) {
            self.keeper.retire(board, code);
            self.state = EntryState::Zombie;
        }
        Some(weighed)
    }

    fn free(&mut self, board: &Board) -> bool
        requires { board.now ≡ N.board }
    {
        if !matches!(self.state, EntryState::Zombie) {
            return false;
        }
        let code = self.code();
        self.keeper.free(board, code);
        self.state = EntryState::Vacant;
        true
    }

    // The count of this slot or of a lower one.
    fn peek_count(&self, board: &Board, slot: u64) -> Option<u64>
        requires { board.now ≡ N.board }
    {
        if slot > self.slot as u64 {
            return None;
        }
        Some(board.peek_count(slot as u32))
    }

    // How many places are covered for the code.
    fn look_at_all(&mut self, board: &Board) -> u64
        requires { board.now ≡ N.board }
    {
        let mut done = 0u64;
        for place in 0..self.places {
            if self.look(board, place) == Some(true) {
                done = done.wrapping_add(1);
            }
        }
        done
    }

    pub fn play(&mut self, board: &Board, call: &str, first: u64) -> Option<Said>
        requires { board.now ≡ N.board }
    {
        match call {
            "install" => {
                if !self.install(board, first) {
                    return None;
                }
                tells("code ", first)
            }
            "invalidate" => made(self.invalidate(board), "ok"),
            "round" => made(self.round(board), "ok"),
            "look" => {
                let is_past = self.look(board, first as usize)?;
                says(if is_past { "clear" } else { "late" })
            }
            "looks" => tells("past ", self.look_at_all(board)),
            "weigh" => said_of(self.weigh(board)?),
            "free" => made(self.free(board), "ok"),
            "peek" => tells("count ", self.peek_count(board, first)?),
            _ => None,
        }
    }

    pub fn into_keeper(self) -> Keeper
        ensures { result.board ≡ N.board }
    {
        let Shelf {
            keeper,
            places: _,
            slot: _,
            serial: _,
            state: _,
            of: _,
        } = self;
        keeper
    }
}
