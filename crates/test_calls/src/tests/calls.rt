//! The queries of the jobs that a row's calls have.
use operations::Ask;
use std::alloc::{AllocError, Global};
use test_support::Asked;

// No thread has this name. A word that isn't a number stands for it.
const NOBODY: u64 = 0;

// The query that precedes the names in a call; None if the call has no jobs.
fn ask_of(before: &str) -> Option<Ask> {
    match before.split_once("count_of ") {
        None => Some(Ask::Depth),
        Some((_, serial)) => Some(Ask::CountOf(serial.parse().ok()?)),
    }
}

/// The query and the targets of a call: `submit depth of 1 2`, `reclaim 1 count_of 1 of 1 2`. None if the call has no jobs.
pub fn asked_in(alloc: Global, text: &str) -> Result<Option<(Ask, Vec<u64>)>, AllocError> {
    let Some((before, names)) = text.split_once(" of ") else {
        return Ok(None);
    };
    let Some(ask) = ask_of(before) else {
        return Ok(None);
    };
    let mut whom = Vec::new(alloc);
    for name in names.split_whitespace() {
        let name = name.parse().unwrap_or(NOBODY);
        whom.push(name).map_err(|_| AllocError)?;
    }
    Ok(Some((ask, whom)))
}

// Adds the queries of a row's jobs, if it has some.
fn add_asked(alloc: Global, row: &str, lists: &mut Vec<Vec<Asked>>) -> Result<(), AllocError> {
    let (calls, _answer) = row.split_once(" = ").unwrap_or(("", row));
    if let Some((ask, whom)) = asked_in(alloc, calls)? {
        let mut asked = Vec::new(alloc);
        for name in whom {
            asked.push((name, ask)).map_err(|_| AllocError)?;
        }
        lists.push(asked).map_err(|_| AllocError)?;
    }
    Ok(())
}

/// The queries of the jobs of each row that has some, the first row last.
pub fn asked_by(alloc: Global, text: &str) -> Result<Vec<Vec<Asked>>, AllocError> {
    let mut lists = Vec::new(alloc);
    for line in text.lines() {
        for row in line.split("; ") {
            add_asked(alloc, row, &mut lists)?;
        }
    }
    lists.reverse();
    Ok(lists)
}
