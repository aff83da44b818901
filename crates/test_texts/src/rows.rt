//! Rows of steps. A row has one or more, as `begin 0 => ok; end 0 => ok`. One as `1 to 64 | ask census => asked #`, or as
//! `begin, end | # 0 => ok`, has its steps for each number of a range, which may also fall, or for each item of a list: there `#`
//! stands for the number or the item.
use std::alloc::{AllocError, Global};

/// The steps of rows, each on a line.
pub fn steps_of(alloc: Global, rows: &str) -> Result<String, AllocError> {
    let mut steps = String::new(alloc);
    add_rows(alloc, &mut steps, rows)?;
    Ok(steps)
}

/// Adds the steps of rows to others.
pub fn add_rows(alloc: Global, steps: &mut String, rows: &str) -> Result<(), AllocError> {
    for row in rows.lines() {
        match row.split_once(" | ") {
            Some((each, pattern)) => add_each(alloc, steps, each, pattern)?,
            None => add_steps(steps, row)?,
        }
    }
    Ok(())
}

fn add_steps(steps: &mut String, row: &str) -> Result<(), AllocError> {
    for step in row.split("; ") {
        steps.push_str(step)?;
        steps.push_str("\n")?;
    }
    Ok(())
}

fn add_each(
    alloc: Global,
    steps: &mut String,
    each: &str,
    pattern: &str,
) -> Result<(), AllocError> {
    match range_of(each) {
        Some((first, last)) => add_for_numbers(alloc, steps, first, last, pattern),
        None => add_for_items(alloc, steps, each, pattern),
    }
}

// The first number of a range and its last; none where it is a list.
fn range_of(each: &str) -> Option<(u64, u64)> {
    let (first, last) = each.split_once(" to ")?;
    Some((first.parse::<u64>().ok()?, last.parse::<u64>().ok()?))
}

fn add_for_numbers(
    alloc: Global,
    steps: &mut String,
    first: u64,
    last: u64,
    pattern: &str,
) -> Result<(), AllocError> {
    for after in 0..first.abs_diff(last).saturating_add(1) {
        let number = if first <= last {
            first.wrapping_add(after)
        } else {
            first.wrapping_sub(after)
        };
        let number = number.to_string(alloc)?;
        add_steps(steps, &pattern.replace(alloc, '#', &number)?)?;
    }
    Ok(())
}

fn add_for_items(
    alloc: Global,
    steps: &mut String,
    items: &str,
    pattern: &str,
) -> Result<(), AllocError> {
    for item in items.split(", ") {
        add_steps(steps, &pattern.replace(alloc, '#', item)?)?;
    }
    Ok(())
}
