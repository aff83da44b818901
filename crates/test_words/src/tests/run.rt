// A run consists of rows of steps, each `CORE | CALL => ANSWER`. The core's line and the call on running words both give the answer; a
// step may lack one of the two.
ghost use Rattle.std.specs.Prelude.{◌≡◌, ◌<◌, ◌≤◌, ℕ, Some, length, vec_len, slice_get};
ghost use Rattle.board.specs.Boards.{first_keeper, first_seat};
ghost use Rattle.poll.specs.Rows.{first_poller};

use super::core_lines::is_answered;
use super::play::play;
use super::rows::steps_in;
use super::said::number_in;
use super::tables::{Tables, places_of};
use board::{Board, ClosedBoard, Keeper, ThreadSeat};
use bodies::Name;
use poll::{Armer, PollRow, Poller};
use std::alloc::{AllocError, Global};
use std::marker::Brand;
use std::process::Abort;

// The final words of the board are the entries, the counts, the moments of the places, and the global moment. An entry is four times
// the serial, plus 0 for in use, 1 for not entrant, 2 for zombie, 3 for vacant.
#[derive(Clone, Copy)]
pub struct Run {
    pub places: usize,
    pub slots: u32,
    // The slot in which codes are installed.
    pub slot: u32,
    pub lines: &'static str,
    pub left: &'static str,
}

fn is_said<N: Name>(tables: &mut Tables<N>, step: &str) -> bool {
    let Some((calls, answer)) = step.split_once(" => ") else {
        return false;
    };
    let Some((_, call)) = calls.split_once("| ") else {
        return true;
    };
    match play(tables, call) {
        Some(said) => said.is(answer),
        None => false,
    }
}

// The first step of a row to which the words give a wrong answer.
fn unsaid_in<N: Name>(tables: &mut Tables<N>, row: &'static str) -> Option<&'static str> {
    for step in steps_in(row).split("; ") {
        if !is_said(tables, step) {
            return Some(step);
        }
    }
    None
}

// The first such step of all rows.
fn first_unsaid<N: Name>(tables: &mut Tables<N>, rows: &'static str) -> Option<&'static str> {
    for row in rows.lines() {
        let unsaid = unsaid_in(tables, row);
        if unsaid.is_some() {
            return unsaid;
        }
    }
    None
}

fn word(closed: &ClosedBoard, slots: u32, places: usize, index: u32) -> u64
    requires { (closed.now.slots ≡ slots) × (closed.now.places ≡ places) }
{
    if index < slots {
        let entry = closed.entry(index);
        return if entry.serial < 1 << 40 {
            entry.pack()
        } else {
            0
        };
    }
    let index = index - slots;
    if index < slots {
        return closed.count(index);
    }
    let place = (index - slots) as usize;
    if place < places {
        closed.place(place)
    } else {
        closed.moment()
    }
}

pub fn are_words(closed: &ClosedBoard, slots: u32, places: usize, words: &str) -> bool
    requires sizes { (closed.now.slots ≡ slots) × (closed.now.places ≡ places) }
    requires few { places ≤ 64 }
{
    let mut index = 0u32;
    for text in words.split(' ') {
        if number_in(text) != Some(word(closed, slots, places, index)) {
            return false;
        }
        index = index.wrapping_add(1);
    }
    index as usize == 2 * slots as usize + places + 1
}

fn are_left<N: Name>(alloc: Global, tables: Tables<N>, run: Run) -> bool
    requires sizes { (N.board.slots ≡ run.slots) × (N.board.places ≡ run.places) }
    requires few { run.places ≤ 64 }
{
    let Tables {
        board,
        row: _,
        shelf,
        armer: _,
        places: _,
    } = tables;
    let closed = board.close(shelf.into_keeper(), Vec::new(alloc));
    let are_so = are_words(&closed, run.slots, run.places, run.left);
    closed.free();
    are_so
}

// The first step to which running words give a wrong answer. If there is none, the final words if they are wrong.
fn wrong_in<N: Name>(alloc: Global, mut tables: Tables<N>, run: Run) -> Option<&'static str>
    requires sizes { (N.board.slots ≡ run.slots) × (N.board.places ≡ run.places) }
    requires few { run.places ≤ 64 }
{
    if let Some(line) = first_unsaid(&mut tables, run.lines) {
        return Some(line);
    }
    if run.left.is_empty() || are_left(alloc, tables, run) {
        return None;
    }
    Some(run.left)
}

fn wrong_on<N: Name>(
    alloc: Global,
    run: Run,
    board: Board,
    keeper: Keeper,
    seats: Vec<ThreadSeat>,
    row: PollRow,
    armer: Armer,
    pollers: Vec<Poller>,
) -> Result<Option<&'static str>, AllocError>
    requires names { (board ≡ N.board) × (row ≡ N.poll_row) }
    requires sizes { (board.slots ≡ run.slots) × (board.places ≡ run.places)
        × (run.slot < run.slots) × (run.places ≤ 64) }
    requires keeper { keeper ≡ first_keeper board }
    requires armer { armer.table ≡ row }

    requires seats { length seats.items ≡ run.places }
    requires each_seat { (k : ℕ) → k < run.places
        → slice_get seats.items k ≡ Some (first_seat board k) }
    requires pollers { vec_len pollers ≡ run.places }
    requires each_poller { (k : ℕ) → k < run.places
        → slice_get pollers.items k ≡ Some (first_poller row k) }
{
    let places = places_of::<N>(alloc, run.places, seats, pollers, run.slot)?;
    let tables = Tables::of(board, row, keeper, armer, places, run.places, run.slot);
    Ok(wrong_in(alloc, tables, run))
}

// The first error of a run on running words.
pub fn wrong_on_words(alloc: Global, run: Run) -> Result<Option<&'static str>, AllocError> {
    if run.places == 0 || run.places > 64 || run.slots > 1024 || run.slot >= run.slots {
        return Ok(Some("its sizes"));
    }
    let (board, keeper, seats) = Board::new(alloc, run.places, run.slots as usize)?;
    let (row, armer, pollers) = PollRow::new(alloc, run.places)?;
    wrong_on::<Brand>(alloc, run, board, keeper, seats, row, armer, pollers)
}

pub fn assert_plays(rt: &impl Abort, alloc: Global, run: Run) -> Result<(), AllocError> {
    let wrong = wrong_on_words(alloc, run)?;
    assert!(rt; wrong.is_none(), "{}", wrong.unwrap_or(""));
    assert!(rt;
        is_answered(rt, alloc, run.lines),
        "the core at {}",
        run.lines
    );
    Ok(())
}
