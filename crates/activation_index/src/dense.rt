//! Counts by slot: each cell has the serial of the slot's code and its count.
ghost use Rattle.std.specs.Prelude.{◌≡◌, ◌≢◌, ℕ, ◌+◌, ◌<◌, ◌≤◌, ◌==◌, List, [], ◌∷◌, length, true, false, IfOk, pos, ℤ, ◌+ℤ◌, ◌≤ℤ◌, map, slice_set, slice_get, replicate, OnErr, Some, None, if◌then◌else◌};
ghost use Rattle.std.specs.List.Sorted.{IsPermutation, IsNonDecreasingBy};
ghost use Rattle.activation_index.specs.Cells.{count_at, cell_of, counted, pair_of};
ghost use Rattle.activation_index.specs.Pairs.{of_serial, IsRisingPairs};

use crate::{Entry, moved};
use std::alloc::{AllocError, Global};
use std::marker::Model;

/// The counts of codes by slot. Contracts see the list of its cells.
#[derive(Drop)]
pub struct DenseIndex {
    cells: Vec<Entry>,
}

impl Model for DenseIndex {
    ghost use Rattle.std.specs.Prelude.{List};
    ghost use Rattle.activation_index.specs.declared.Entry.{Entry};

    ghost Value = { List Entry };

    ghost view = { λ i. i.cells.items };
}

impl DenseIndex {
    /// Makes cells for this many slots, with serial 0 and count 0 in each.
    ///
    /// # Errors
    /// Memory is refused.
    pub fn new(alloc: Global, slots: usize) -> Result<DenseIndex, AllocError>
        ensures empty { IfOk result (λ index. index ≡ replicate slots (cell_of 0 0)) }
    {
        let cell = Entry {
            serial: 0,
            count: 0,
        };
        Ok(DenseIndex {
            cells: vec![in alloc; cell; slots]?,
        })
    }

    /// Gives the slot's cell to a new serial. The cell's count must be 0 and its serial smaller.
    pub fn place(&mut self, slot: usize, serial: u64)
        requires slot { slot < length self.old }
        requires free { (cell : _) → slice_get self.old slot ≡ Some cell → (cell.count ≡ 0)
            × (cell.serial < serial) }
        ensures { self.new ≡ slice_set self.old slot (cell_of serial 0) }
    {
        self.cells[slot] = Entry { serial, count: 0 };
    }

    /// Adds `by` to the count of the slot's cell, which must have this serial. The new count must be from 0 to 16,384,
    /// which is 64 stacks of 256 frames.
    pub fn add(&mut self, slot: usize, serial: u64, by: i32)
        requires slot { slot < length self.old }
        requires serial { (cell : _) → slice_get self.old slot ≡ Some cell → cell.serial ≡ serial }
        requires low { pos 0 ≤ℤ (pos (count_at self.old slot serial) +ℤ by) }
        requires high { (pos (count_at self.old slot serial) +ℤ by) ≤ℤ pos 16384 }

        ensures here { pos (count_at self.new slot serial)
            ≡ pos (count_at self.old slot serial) +ℤ by }
        ensures others { self.new
            ≡ slice_set self.old slot (cell_of serial (count_at self.new slot serial)) }
    {
        let count = moved(self.cells[slot].count, by);
        self.cells[slot] = Entry { serial, count };
    }

    /// Returns the count of the slot's cell if the cell has this serial, otherwise 0.
    pub fn count(&self, slot: usize, serial: u64) -> u32
        ensures { result ≡ count_at self.now slot serial }
    {
        match self.cells.get(slot) {
            Some(cell) => { if cell.serial == serial { cell.count } else { 0 } }
            None => 0,
        }
    }

    /// Returns the serials with a count above 0, rising, each with its count.
    ///
    /// # Errors
    /// Memory is refused.
    pub fn census(&self, alloc: Global) -> Result<Vec<(u64, u32)>, AllocError>
        ensures census { IfOk result (λ census. IsPermutation (counted self.now) census.items) }
        ensures sorted { IfOk result (λ census. IsNonDecreasingBy (λ pair. pair.0) census.items) }
        ensures rising { IfOk result (λ census. ((serial : ℕ)
            → of_serial serial (counted self.now) ≤ 1)
            → IsRisingPairs 0 census.items) }
    {
        let mut census = counted_cells(alloc, &self.cells)?;
        census.sort_unstable_by_key(|pair| pair.0);
        Ok(census)
    }
}

// The serial and count of a cell whose count isn't 0.
fn pair_of(cell: &Entry) -> Option<(u64, u32)>
    ensures { result ≡ pair_of cell.now }
{
    if cell.count == 0 {
        None
    } else {
        Some((cell.serial, cell.count))
    }
}

fn counted_cells(alloc: Global, cells: &[Entry]) -> Result<Vec<(u64, u32)>, AllocError>
    ensures { IfOk result (λ list. list.items ≡ counted cells.now) }
{
    cells.iter().filter_map(|cell| pair_of(cell)).collect(alloc)
}
