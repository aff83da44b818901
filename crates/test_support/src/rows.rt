//! Plays the rows of a text. A row is calls and the answer of each, as `tell 1, tell 2 = told`. A line may have several rows, as
//! `state 1 = InJava; place 1 = 0`. Empty lines and lines that begin with `#` are skipped.
//!
//! A row that begins as `1..64:` is played for each of these numbers, which replaces `*` in the row. Other words before a colon are the
//! beginning of each call of the row.
//!
//! A call that is refused for want of memory is repeated, like in a program that finds memory later. Before the repetition, the rows after
//! the call's own row are played, each after a `|`.
use crate::said::Said;
use std::alloc::{AllocError, Global};
use std::io::Print;
use std::test::Fail;
use thread_list::Parts;

/// The object that answers the calls of rows.
pub trait Player<R> {
    /// The answer of a call; None if there is no such call.
    fn answer(&mut self, rt: &R, alloc: Global, call: &str) -> Option<Said>;
}

/// Why a text isn't played to its end.
#[derive(Drop)]
pub enum Stopped {
    /// Memory that playing itself takes was refused.
    NoMemory,
    /// A row can't be read, or its call has another answer: this says where and why.
    At(String),
}

impl From<AllocError> for Stopped {
    fn from(_error: AllocError) -> Stopped {
        Stopped::NoMemory
    }
}

/// The call that was refused for want of memory while a text was played, if there was one.
pub type Played = Result<Option<String>, Stopped>;

// The state of playing a text, at a line of it.
#[derive(Drop)]
struct Playing<'r, 'p, R, P> {
    rt: &'r R,
    alloc: Global,
    player: &'p mut P,
    line: u64,
    refused: Option<String>,
}

impl<R, P: Player<R>> Playing<'_, '_, R, P> {
    // Why the playing stops at the line.
    fn stopped(&self, why: &str, what: &str) -> Stopped {
        match format!(in self.alloc; "line {}: {why}{what}", self.line) {
            Ok(text) => Stopped::At(text),
            Err(_) => Stopped::NoMemory,
        }
    }

    // Whether the call has this answer. A call that was refused for want of memory is noted.
    fn play_call(&mut self, call: &str, expected: &str) -> Result<bool, Stopped> {
        let Some(said) = self.player.answer(self.rt, self.alloc, call) else {
            return Err(self.stopped("there is no ", call));
        };
        let said = said?;
        if said.as_str() == expected {
            return Ok(true);
        }
        if self.refused.is_some() || !said.as_str().contains("NoMemory") {
            let text = format!(in self.alloc; "{call} answers {said} and not {expected}")?;
            return Err(self.stopped("", &text));
        }
        self.refused = Some(String::from_str(self.alloc, call)?);
        Ok(false)
    }

    // The calls of a row, and the answer of each.
    fn halves_of<'t>(&self, row: &'t str) -> Result<(&'t str, &'t str), Stopped> {
        match row.split_once(" = ") {
            Some((calls, expected)) => Ok((calls, expected.trim())),
            None => Err(self.stopped("no answer in ", row)),
        }
    }

    // Plays the rows that hold after memory for a call was refused.
    fn play_refused(&mut self, rows: &str) -> Result<(), Stopped> {
        for row in rows.split('|') {
            let (calls, expected) = self.halves_of(row)?;
            for call in calls.split(',') {
                self.play_call(call.trim(), expected)?;
            }
        }
        Ok(())
    }

    // Makes the call, and repeats it if it was refused.
    fn play_again(
        &mut self,
        call: &str,
        expected: &str,
        refused: Option<&str>,
    ) -> Result<(), Stopped> {
        if self.play_call(call, expected)? {
            return Ok(());
        }
        if let Some(rows) = refused {
            self.play_refused(rows)?;
        }
        self.play_call(call, expected)?;
        Ok(())
    }

    // Each call of the row begins with these words, if there are any.
    fn play_row(&mut self, begin: &str, row: &str) -> Result<(), Stopped> {
        let (row, refused) = match row.split_once('|') {
            Some((row, refused)) => (row, Some(refused)),
            None => (row, None),
        };
        let (calls, expected) = self.halves_of(row)?;
        for call in calls.split(',') {
            let call = call.trim();
            if begin.is_empty() {
                self.play_again(call, expected, refused)?;
            } else {
                let call = format!(in self.alloc; "{begin}: {call}")?;
                self.play_again(&call, expected, refused)?;
            }
        }
        Ok(())
    }

    fn play_for_each(&mut self, first: &str, last: &str, row: &str) -> Result<(), Stopped> {
        let (Ok(first), Ok(last)) = (first.parse::<u32>(), last.parse::<u32>()) else {
            return Err(self.stopped("no numbers before ", row));
        };
        for number in first..=last {
            let number = format!(in self.alloc; "{number}")?;
            let row = row.replace(self.alloc, '*', &number)?;
            self.play_row("", &row)?;
        }
        Ok(())
    }

    // A row with what it begins with.
    fn play_whole(&mut self, row: &str) -> Result<(), Stopped> {
        let (begin, row) = row.split_once(": ").unwrap_or(("", row));
        match begin.split_once("..") {
            Some((first, last)) => self.play_for_each(first, last, row),
            None => self.play_row(begin, row),
        }
    }

    fn play_line(&mut self, line: &str) -> Result<(), Stopped> {
        self.line = self.line.saturating_add(1);
        if line.is_empty() || line.starts_with('#') {
            return Ok(());
        }
        for row in line.split("; ") {
            self.play_whole(row)?;
        }
        Ok(())
    }
}

/// Plays the text. `refused` is the call that was refused before, if there was one.
pub fn play_rows<R, P: Player<R>>(
    rt: &R,
    alloc: Global,
    player: &mut P,
    text: &str,
    refused: Option<String>,
) -> Played {
    let mut playing = Playing {
        rt,
        alloc,
        player,
        line: 0,
        refused,
    };
    for line in text.lines() {
        playing.play_line(line.trim())?;
    }
    Ok(playing.refused)
}

/// How many places, slots and methods a system has.
pub type Sizes = [usize; 3];

/// A text over a new system of these sizes. A function that takes this type fixes its ghost members; a function that takes only the text
/// doesn't.
#[derive(Clone, Copy, Drop)]
pub struct Run<'t> {
    pub sizes: Sizes,
    pub text: &'t str,
}

impl Run<'_> {
    /// The parts of its system.
    pub fn parts(&self, alloc: Global) -> Result<Parts, AllocError> {
        let [places, slots, methods] = self.sizes;
        Parts::new(alloc, places, slots, methods).map_err(|_| AllocError)
    }
}

/// Fails if a text wasn't played to its end, or a call was refused.
pub fn expect_whole(played: Played) -> Result<(), Fail> {
    match played {
        Ok(None) => Ok(()),
        Ok(Some(call)) => Err(Fail::new(format_args!("{call} was refused for want of memory"))),
        Err(Stopped::NoMemory) => Err(Fail::new("no memory for the rows")),
        Err(Stopped::At(why)) => Err(Fail::new(why)),
    }
}

/// Prints which call was refused, or `none` if no call was. Fails if a row has another answer.
pub fn print_refused<R: Print>(rt: &R, played: Played, none: &str) -> Result<(), Fail> {
    match played {
        Ok(None) => println!(rt; "{none}")?,
        Ok(Some(call)) => println!(rt; "{call} was refused")?,
        Err(Stopped::NoMemory) => println!(rt; "what a run or its rows take was refused")?,
        Err(Stopped::At(why)) => return Err(Fail::new(why)),
    }
    Ok(())
}
