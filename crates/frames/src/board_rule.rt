//! The code board: its words, what its seats know, and the steps that they make.
//!
//! A board has an entry and a count for each slot, a moment for each place, and a moment of its own. `specs/BoardRule.antt` has the
//! rule that holds between any two steps, `specs/BoardStep.antt` the kinds of step. They speak of functions, so that a world
//! without a table can meet them too. The types below are what a table's views are made of: no value of them is made.
ghost use Rattle.std.specs.Prelude.{◌≡◌, ℕ, ◌^◌, ◌<◌};
ghost use Rattle.frames.specs.BoardWords.{rank, pack, unpack};
ghost use Rattle.frames.specs.BoardRule.{BoardState, IsBoardKept, counted_in, first_board};
ghost use Rattle.frames.specs.BoardStep.{Actor, BoardStep};
ghost use Rattle.frames.specs.declared.board_rule.StepMade.{StepMade as Made};

use crate::CodeId;
use std::collections::LinkedList;

/// The state of the code in a slot. Until another code is installed it only goes forward, in this order.
/// (The first three are HotSpot's states of an nmethod.)
#[derive(Clone, Copy, Debug, PartialEq, Eq)]
pub enum EntryState {
    /// New activations may be made.
    InUse,
    /// Old activations may stand, new ones aren't made.
    NotEntrant,
    /// No activation stands.
    Zombie,
    /// The slot may be used again.
    Vacant,
}

impl EntryState {
    /// How far the state is: 0 in use, 1 not entrant, 2 zombie, 3 vacant.
    pub fn rank(self) -> u64
        ensures { result ≡ rank self }
    {
        match self {
            EntryState::InUse => 0,
            EntryState::NotEntrant => 1,
            EntryState::Zombie => 2,
            EntryState::Vacant => 3,
        }
    }

    fn of_rank(rank: u64) -> EntryState
        ensures { result ≡ Rattle.frames.specs.BoardWords.state_of rank }
    {
        match rank {
            0 => EntryState::InUse,
            1 => EntryState::NotEntrant,
            2 => EntryState::Zombie,
            _ => EntryState::Vacant,
        }
    }
}

/// What an entry word says of its slot: the serial of the last code that was installed there, 0 for none, and its state.
#[derive(Clone, Copy, Debug, PartialEq, Eq)]
pub struct Entry {
    pub serial: u64,
    pub state: EntryState,
}

impl Entry {
    /// The word of the entry. Nothing is lost, and a word only grows while the slot's code goes forward and is replaced by later ones.
    pub fn pack(self) -> u64
        requires small { self.serial < 2 ^ 40 }
        ensures word { result ≡ pack self.serial self.state }
        ensures nothing_is_lost { unpack result ≡ self }
    {
        4 * self.serial + self.state.rank()
    }

    /// The entry that the word says.
    pub fn unpack(word: u64) -> Entry
        ensures { result ≡ unpack word }
    {
        Entry {
            serial: word / 4,
            state: EntryState::of_rank(word % 4),
        }
    }
}

/// The last step of a seat, with the value that it met.
pub enum StepMade {
    Nothing,
    /// The code that was asked for, and the word that was found.
    LoadEntry(CodeId, u64),
    /// The code, and the state that was stored.
    StoreEntry(CodeId, EntryState),
    /// The moment that was found.
    LoadMoment(u64),
    /// The moment that was found, one below the new one.
    AddMoment(u64),
    /// What was stored: a moment, or 0 for a vacant place.
    StorePlace(u64),
    /// The code, by how much, and the count that was found.
    AddCount(CodeId, u64, u64),
    /// The code, by how much, and the count that was found.
    SubCount(CodeId, u64, u64),
    /// The code, the place, and what was found there.
    LoadPlace(CodeId, u64, u64),
    /// The code, and the count that was found.
    LoadCount(CodeId, u64),
}

/// What the keeper knows of a slot.
pub struct SlotView {
    pub serial: u64,
    pub state: EntryState,
    /// The moment of the invalidation, 0 for none.
    pub left: u64,
    /// The places that were looked at for the code, and found clear of it or published late enough.
    pub looked: LinkedList<u64>,
    /// Whether the code was weighed clear: all places were looked at, and it counted 0.
    pub clear: bool,
}

/// What the keeper knows.
pub struct KeeperView {
    pub moment: u64,
    pub slots: LinkedList<SlotView>,
    /// How many seats were split off.
    pub split: u64,
    pub steps: u64,
    pub last: StepMade,
}

/// What the seat of a place knows.
pub struct SeatView {
    pub place: u64,
    /// The codes that were counted, and how often, the newest first: the first entry of a code says how often it is counted now.
    pub counted: LinkedList<(CodeId, u64)>,
    /// The codes that were entered since the last publication ended.
    pub fresh: LinkedList<CodeId>,
    /// The moment that was read for the publication that is open, 0 for none.
    pub moment: u64,
    /// The moment that is stored, 0 for none.
    pub stored: u64,
    /// The codes that were found no longer in use, or replaced.
    pub gone: LinkedList<CodeId>,
    pub steps: u64,
    pub last: StepMade,
}

/// What a seat of a board's table knows. The number is its stamp, which rises at each step of the seat: of two seats the one whose
/// stamp is greater stepped later.
pub enum BoardView {
    /// The keeper's. While a board is closed, it also has what each seat knew that was given back.
    Keeper(KeeperView, LinkedList<SeatView>, u64),
    Thread(SeatView, u64),
    /// A thread's that was given back.
    Ended,
}

/// A law: whatever step a seat makes, where it is allowed, a board that meets the rule meets it afterwards.
pub fn steps_keep_the_rule()
    ensures { (slots places : ℕ) (old new : BoardState) (actor : Actor) (made : Made)
        → BoardStep slots places old new actor made → IsBoardKept slots places old
        → IsBoardKept slots places new }
{}

/// A law: a new board, with vacant slots and places, meets the rule.
pub fn new_boards_meet_the_rule()
    ensures { (slots places : ℕ) → IsBoardKept slots places first_board }
{}

/// A law: a count word is the sum, over the seats, of what they count in its slot, whatever the serial.
/// (The rule says it of the serial that stands there, since no other has a count.)
pub fn counts_sum_over_all_serials()
    ensures { (slots places : ℕ) (board : BoardState) → IsBoardKept slots places board
        → (slot bound : ℕ) → slot < slots → (board.slot slot).serial < bound
        → board.word (Rattle.frames.specs.BoardWords.count_of slot)
        ≡ counted_in places bound board slot }
{}
