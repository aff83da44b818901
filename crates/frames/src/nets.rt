// Codes with their nets: how many frames each has more than are counted.
ghost use Rattle.std.specs.Prelude.{None, ◌≡◌, ◌≢◌, ℕ, ◌+◌, ◌<◌, ◌≤◌, ◌==◌, List, [], ◌∷◌, ◌++◌, length, false, true, drop, pos, ◌+ℤ◌, ◌≤ℤ◌, vec_capacity, slice_get, slice_index_or, IfOk, IfSome, IfNone, filter, not, count_by};
ghost use Rattle.std.specs.List.{All, list_any};
ghost use Rattle.std.specs.List.Sorted.{IsPermutation};
ghost use Rattle.frames.specs.declared.CodeId.{CodeId};
ghost use Rattle.frames.specs.declared.Change.{Change};
ghost use Rattle.frames.specs.Stack.{same_code, times};
ghost use Rattle.frames.specs.Kept.{upto};
ghost use Rattle.frames.specs.Nets.{NetsView, IsRising, net_in, add, settled, total, codes_in, cell_of, nothing_at, is_zero, is_in, IsAt, IsPut, IsWithin, AreAmong, AreOnce, AreNetsAmong, AreAtRest, AreCells, AreTouched, AreKept, net_sum, AreSmall};

use crate::{Change, CodeId};
use std::alloc::{AllocError, Global};
use std::marker::Model;

/// How many codes the list can have before one that moved back gives way. At most 512 have a net:
/// 256 have frames, and 256 are counted without a frame.
pub(crate) const MOVED: usize = 1024;

/// How many cells there are: one for each value of a slot's last bits.
const CELLS: usize = 1024;

/// The list's room: a publication moves the nets of all cells there.
const ROOM: usize = MOVED + CELLS;

/// Nets by code, as contracts see them rising by serial and then by slot, none of them 0. It
/// reserves its room once.
///
/// Calls and returns only note them: the cell of a code's slot has the code with its net, so that
/// a move looks at that cell alone, and neither searches nor shifts any list. Over a sorted list a
/// call and its return take several times as long at a depth of 256 (docs/project/SPEED.md). A
/// publication first flushes, which lists and sorts them. One that keeps codes leaves them in their
/// cells, if each has a net: what moved is likely to move back before the next, and isn't noted anew then.
#[derive(Drop)]
pub(crate) struct Nets {
    // By the last bits of a slot: a code with its net. One with other last bits stands for none.
    cells: Vec<CodeNet>,
    // Where there are codes in the cells, with a net or without, so that a flush goes over no others.
    touched: Vec<u16>,
    // The nets of codes whose cell had another code with a net. Flushed, it has all nets, sorted, and the cells have none.
    list: Vec<CodeNet>,
    flushed: bool,
}

/// A code with its net, as contracts see a change by so much. It has 16 bytes, where a change has 24
/// with a gap: a cell is found by a shift, and a line of the processor's caches has four.
#[derive(Clone, Copy, Drop)]
struct CodeNet {
    serial: u64,
    slot: u32,
    by: i32,
}

impl Model for CodeNet {
    ghost use Rattle.frames.specs.declared.Change.{Change};

    ghost Value = { Change };

    ghost view = { λ n. record {
      code = record { slot = n.slot; serial = n.serial };
      by = n.by;
    } };

    ghost inverse = { λ e. record { serial = e.code.serial; slot = e.code.slot; by = e.by } };
}

impl CodeNet {
    #[inline(always)]
    fn new(code: CodeId, by: i32) -> CodeNet
        ensures { result ≡ record { code = code; by = by } }
    {
        CodeNet {
            serial: code.serial,
            slot: code.slot,
            by,
        }
    }

    #[inline(always)]
    fn change(self) -> Change
        ensures { result ≡ self }
    {
        Change {
            code: self.code(),
            by: self.by,
        }
    }

    #[inline(always)]
    fn code(self) -> CodeId
        ensures { result ≡ self.code }
    {
        CodeId {
            slot: self.slot,
            serial: self.serial,
        }
    }

    #[inline(always)]
    fn by(self) -> i32
        ensures { result ≡ self.by }
    {
        self.by
    }

    // The code without a net.
    #[inline(always)]
    fn at_rest(self) -> CodeNet
        ensures { result ≡ record { code = self.code; by = pos 0 } }
    {
        CodeNet { by: 0, ..self }
    }

    #[inline(always)]
    fn is_of(&self, code: CodeId) -> bool
        ensures { result ≡ same_code self.now.code code }
    {
        self.serial == code.serial && self.slot == code.slot
    }

    #[inline(always)]
    fn move_by(&mut self, by: i32)
        requires low { pos 0 ≤ℤ (self.old.by +ℤ by +ℤ pos 2147483648) }
        requires high { (self.old.by +ℤ by) ≤ℤ pos 2147483647 }
        ensures { self.new ≡ record self.old { by = self.old.by +ℤ by } }
    {
        self.by += by;
    }
}

impl Model for Nets {
    ghost use Rattle.std.specs.Prelude.{vec_capacity, ◌++◌};
    ghost use Rattle.frames.specs.Nets.{NetsView, AreKept, settled};

    ghost Value = { NetsView };

    ghost view = { λ n. record {
      entries = settled (n.cells.items ++ n.list.items);
      flushed = n.flushed;
    } };

    ghost invariant = { λ n. AreKept n.cells.items n.touched.items (vec_capacity n.touched)
        n.list.items (vec_capacity n.list) n.flushed };
}

impl Nets {
    /// No nets.
    ///
    /// # Errors
    /// The allocator has no room.
    pub(crate) fn new(alloc: Global) -> Result<Nets, AllocError>
        ensures { IfOk result (λ nets. nets ≡ record { entries = []; flushed = false }) }
    {
        Ok(Nets {
            cells: no_codes(alloc)?,
            touched: Vec::with_capacity(alloc, CELLS)?,
            list: Vec::with_capacity(alloc, ROOM)?,
            flushed: false,
        })
    }

    /// Moves the net of the code by 1 or by -1.
    #[inline(always)]
    pub(crate) fn add(&mut self, code: CodeId, by: i32)
        requires open { self.old.flushed ≡ false }
        requires one { (pos 0 ≤ℤ (by +ℤ pos 1)) × (by ≤ℤ pos 1) }
        requires some { is_zero by ≡ false }
        requires within { IsWithin (net_in self.old.entries code +ℤ by) 256 }
        requires room { length (add self.old.entries code by) ≤ 512 }

        ensures { self.new ≡ record { entries = add self.old.entries code by; flushed = false } }
    {
        let place = cell_of(code);
        if self.cells[place].is_of(code) {
            self.cells[place].move_by(by);
        } else {
            note(
                &mut self.cells,
                &mut self.touched,
                &mut self.list,
                code.slot,
                code.serial,
                by,
            );
        }
    }

    /// Sorts the nets. No cell has a code then.
    pub(crate) fn flush(&mut self)
        requires { self.old.flushed ≡ false }
        ensures { self.new ≡ record { entries = self.old.entries; flushed = true } }
    {
        drain(&mut self.cells, &self.touched, &mut self.list);
        self.touched.clear();
        settle(&mut self.list);
        self.flushed = true;
    }

    /// Sorts the nets, as [`flush`](Nets::flush) does. The cells keep their codes where each that was
    /// touched has a net.
    pub(crate) fn flush_keeping(&mut self)
        requires { self.old.flushed ≡ false }
        ensures { self.new ≡ record { entries = self.old.entries; flushed = true } }
    {
        move_out(&mut self.cells, &mut self.touched, &mut self.list);
        settle(&mut self.list);
        self.flushed = true;
    }

    /// The net at the place.
    pub(crate) fn get(&self, place: usize) -> Option<Change>
        requires { self.now.flushed ≡ true }
        ensures { result ≡ slice_get self.now.entries place }
    {
        net_at(&self.list, place)
    }

    /// The number of nets.
    pub(crate) fn len(&self) -> usize
        ensures { result ≡ length self.now.entries }
    {
        if self.flushed {
            self.list.len()
        } else {
            nonzero(&self.cells) + nonzero(&self.list)
        }
    }

    /// Whether no cell has a code and the list is empty; then there are none.
    #[inline(always)]
    pub(crate) fn is_unmoved(&self) -> bool
        ensures { result ≡ true → self.now.entries ≡ [] }
    {
        self.touched.is_empty() && self.list.is_empty()
    }

    /// Whether there are none.
    pub(crate) fn is_empty(&self) -> bool
        ensures { result ≡ (length self.now.entries == 0) }
    {
        are_back(&self.cells, &self.touched) && are_zero(&self.list)
    }

    /// The sum of the nets of the serial's codes, from the place on.
    pub(crate) fn sum(&self, from: usize, serial: u64) -> i32
        requires within { from ≤ length self.now.entries }
        requires flushed { from ≢ 0 → self.now.flushed ≡ true }
        ensures { result ≡ net_sum serial (drop from self.now.entries) }
    {
        let listed = net_sum(&self.list[from..], serial);
        if self.flushed {
            listed
        } else {
            listed + net_sum(&self.cells, serial)
        }
    }

    /// Takes out the only net, straight from its cell: nothing is listed or sorted, as a flush would.
    /// `None` where more cells than one were touched, the one has no net, or the list isn't empty;
    /// nothing changes then.
    #[inline(always)]
    pub(crate) fn take_only(&mut self) -> Option<Change>
        requires open { self.old.flushed ≡ false }
        ensures some { IfSome result (λ net. (self.old.entries ≡ net ∷ [])
            × (self.new ≡ record { entries = []; flushed = false })) }
        ensures none { IfNone result (self.new ≡ self.old) }
    {
        if self.touched.len() != 1 || !self.list.is_empty() {
            return None;
        }
        let place = self.touched[0] as usize;
        let net = self.cells[place];
        if !has_net(&net) {
            return None;
        }
        self.cells[place] = net.at_rest();
        Some(net.change())
    }

    /// Drops all nets.
    pub(crate) fn clear(&mut self)
        requires { self.old.flushed ≡ true }
        ensures { self.new ≡ record { entries = []; flushed = false } }
    {
        self.list.clear();
        self.flushed = false;
    }
}

fn net_at(nets: &[CodeNet], place: usize) -> Option<Change>
    ensures { result ≡ slice_get nets.now place }
{
    match nets.get(place) {
        Some(net) => Some(net.change()),
        None => None,
    }
}

// What an empty cell has: a code that isn't of this cell, so that no code is found there.
#[inline(always)]
fn nothing_at(place: usize) -> CodeNet
    ensures { result ≡ nothing_at place }
{
    let slot = if place == 0 { 1 } else { 0 };
    CodeNet::new(CodeId { slot, serial: 0 }, 0)
}

// Empty cells.
fn no_codes(alloc: Global) -> Result<Vec<CodeNet>, AllocError>
    ensures cells { IfOk result (λ cells. AreCells cells.items []) }
    ensures none { IfOk result (λ cells. AreAmong cells.items []) }
{
    let mut cells = vec![in alloc; nothing_at(1); CELLS]?;
    cells[0] = nothing_at(0);
    Ok(cells)
}

// Which cell is that of the code's slot.
#[inline(always)]
fn cell_of(code: CodeId) -> usize
    ensures value { result ≡ cell_of code }
    ensures bound { result < 1024 }
{
    code.slot as usize % CELLS
}

// The place of a code whose cell has another. The list is empty but where slots shared a cell.
#[inline(always)]
fn searched(nets: &[CodeNet], code: CodeId) -> Option<usize>
    ensures some { IfSome result (λ place. IsAt nets.now code place) }
    ensures none { IfNone result (times code (codes_in nets.now) ≡ 0) }
{
    for (place, net) in nets.iter().enumerate() {
        if net.is_of(code) {
            return Some(place);
        }
    }
    None
}

#[inline(always)]
fn has_net(net: &CodeNet) -> bool
    ensures { result ≡ not (is_zero net.now.by) }
{
    net.by() != 0
}

// Where a code moved back to 0.
fn zero_place(nets: &[CodeNet]) -> Option<usize>
    ensures some { IfSome result (λ place. (place < length nets.now)
        × (is_zero (slice_index_or nets.now place
        (record { code = record { slot = 0; serial = 0 }; by = pos 0 })).by ≡ true)) }
    ensures none { IfNone result (length (filter (λ net. not (is_zero net.by)) nets.now)
        ≡ length nets.now) }
{
    for (place, net) in nets.iter().enumerate() {
        if net.by() == 0 {
            return Some(place);
        }
    }
    None
}

// Puts in the net of a code that has none.
#[inline(always)]
fn put(nets: &mut Vec<CodeNet>, net: CodeNet)
    requires room { 1024 ≤ vec_capacity nets.old }
    requires fits { length nets.old.items ≤ 1024 }
    requires once { AreOnce nets.old.items }
    requires few { length (settled nets.old.items) ≤ 512 }

    ensures put { IsPut net nets.old.items nets.new.items }
    ensures capacity { vec_capacity nets.new ≡ vec_capacity nets.old }
{
    if nets.len() < MOVED {
        nets.push_reserved(net);
        return;
    }
    match zero_place(nets) {
        Some(place) => nets[place] = net,
        None => unreachable!(),
    }
}

// Whether the cell can take a code: it is among the touched then.
#[inline(always)]
fn touch(touched: &mut Vec<u16>, cells: &[CodeNet], place: usize) -> bool
    requires place { place < 1024 }
    requires long { length cells.now ≡ 1024 }
    requires touched { AreTouched cells.now touched.old.items }
    requires room { 1024 ≤ vec_capacity touched.old }

    ensures touched { AreTouched cells.now touched.new.items }
    ensures is { result ≡ true → is_in place touched.new.items ≡ true }
    ensures taken { length touched.old.items < 1024 → result ≡ true }
    ensures capacity { vec_capacity touched.new ≡ vec_capacity touched.old }
{
    if cell_of(cells[place].code()) == place {
        return true;
    }
    // It always is: no cell is pushed twice.
    if touched.len() < CELLS {
        touched.push_reserved(place as u16);
        return true;
    }
    false
}

// Moves the net of a code that its cell doesn't have. Apart from `add`, which is shorter for one
// that it has; plain numbers come in registers. Where the list is empty, as it is but where slots
// share a cell, nothing is searched, and nothing is called that would need registers saved.
#[cold]
#[inline(never)]
fn note(
    cells: &mut Vec<CodeNet>,
    touched: &mut Vec<u16>,
    list: &mut Vec<CodeNet>,
    slot: u32,
    serial: u64,
    by: i32,
)
    requires kept { AreKept cells.old.items touched.old.items (vec_capacity touched.old)
        list.old.items (vec_capacity list.old) false }
    requires new { (d : Change)
        → same_code (slice_index_or cells.old.items (cell_of
        (record { slot = slot; serial = serial })) d).code (record { slot = slot; serial = serial })
        ≡ false }
    requires one { (pos 0 ≤ℤ (by +ℤ pos 1)) × (by ≤ℤ pos 1) }
    requires some { is_zero by ≡ false }
    requires within { IsWithin (net_in (settled (cells.old.items ++ list.old.items))
        (record { slot = slot; serial = serial }) +ℤ by) 256 }
    requires room { length (add (settled (cells.old.items ++ list.old.items))
        (record { slot = slot; serial = serial }) by) ≤ 512 }

    ensures kept { AreKept cells.new.items touched.new.items (vec_capacity touched.new)
        list.new.items (vec_capacity list.new) false }
    ensures moved { settled (cells.new.items ++ list.new.items)
        ≡ add (settled (cells.old.items ++ list.old.items))
        (record { slot = slot; serial = serial }) by }
{
    let code = CodeId { slot, serial };
    let place = cell_of(code);
    if list.is_empty() && touched.len() < CELLS && !has_net(&cells[place]) {
        touch(touched, cells, place);
        cells[place] = CodeNet::new(code, by);
        return;
    }
    note_listed(cells, touched, list, slot, serial, by);
}

// Adds to the net of the code, where the list may have it or the cell is another's.
#[inline(never)]
fn note_listed(
    cells: &mut Vec<CodeNet>,
    touched: &mut Vec<u16>,
    list: &mut Vec<CodeNet>,
    slot: u32,
    serial: u64,
    by: i32,
)
    requires kept { AreKept cells.old.items touched.old.items (vec_capacity touched.old)
        list.old.items (vec_capacity list.old) false }
    requires new { (d : Change)
        → same_code (slice_index_or cells.old.items (cell_of
        (record { slot = slot; serial = serial })) d).code (record { slot = slot; serial = serial })
        ≡ false }
    requires one { (pos 0 ≤ℤ (by +ℤ pos 1)) × (by ≤ℤ pos 1) }
    requires some { is_zero by ≡ false }
    requires within { IsWithin (net_in (settled (cells.old.items ++ list.old.items))
        (record { slot = slot; serial = serial }) +ℤ by) 256 }
    requires room { length (add (settled (cells.old.items ++ list.old.items))
        (record { slot = slot; serial = serial }) by) ≤ 512 }

    ensures kept { AreKept cells.new.items touched.new.items (vec_capacity touched.new)
        list.new.items (vec_capacity list.new) false }
    ensures moved { settled (cells.new.items ++ list.new.items)
        ≡ add (settled (cells.old.items ++ list.old.items))
        (record { slot = slot; serial = serial }) by }
{
    let code = CodeId { slot, serial };
    if let Some(place) = searched(list, code) {
        list[place].move_by(by);
        return;
    }
    let place = cell_of(code);
    if !has_net(&cells[place]) {
        if touch(touched, cells, place) {
            cells[place] = CodeNet::new(code, by);
            return;
        }
    }
    put(list, CodeNet::new(code, by));
}

// Moves the net of the cell to the list, and leaves the cell empty.
#[inline(always)]
fn empty(cells: &mut Vec<CodeNet>, list: &mut Vec<CodeNet>, place: usize)
    requires cells { AreCells cells.old.items list.old.items }
    requires place { place < 1024 }
    requires room { length list.old.items < vec_capacity list.old }

    ensures cells { AreCells cells.new.items list.new.items }
    ensures totals { (code : CodeId)
        → total (cells.new.items ++ list.new.items) code
        ≡ total (cells.old.items ++ list.old.items) code }
    ensures among { (places : List ℕ) → AreAmong cells.old.items (place ∷ places)
        → AreAmong cells.new.items places }
    ensures fits { length list.new.items ≤ length list.old.items + 1 }
    ensures capacity { vec_capacity list.new ≡ vec_capacity list.old }
{
    let net = cells[place];
    if has_net(&net) {
        list.push_reserved(net);
    }
    cells[place] = nothing_at(place);
}

// Moves the nets of all cells that have codes into the list.
fn drain(cells: &mut Vec<CodeNet>, touched: &[u16], list: &mut Vec<CodeNet>)
    requires cells { AreCells cells.old.items list.old.items }
    requires touched { AreTouched cells.old.items touched.now }
    requires fits { length list.old.items ≤ 1024 }
    requires room { 2048 ≤ vec_capacity list.old }

    ensures cells { AreCells cells.new.items list.new.items }
    ensures totals { (code : CodeId)
        → total (cells.new.items ++ list.new.items) code
        ≡ total (cells.old.items ++ list.old.items) code }
    ensures none { AreAmong cells.new.items [] }
    ensures capacity { vec_capacity list.new ≡ vec_capacity list.old }
{
    for place in touched {
        empty(cells, list, *place as usize);
    }
}

// Moves the net of the cell to the list. The cell keeps its code.
#[inline(always)]
fn unload(cells: &mut Vec<CodeNet>, list: &mut Vec<CodeNet>, place: usize)
    requires cells { AreCells cells.old.items list.old.items }
    requires place { place < 1024 }
    requires room { length list.old.items < vec_capacity list.old }

    ensures cells { AreCells cells.new.items list.new.items }
    ensures totals { (code : CodeId)
        → total (cells.new.items ++ list.new.items) code
        ≡ total (cells.old.items ++ list.old.items) code }
    ensures nets { (places : List ℕ) → AreNetsAmong cells.old.items (place ∷ places)
        → AreNetsAmong cells.new.items places }
    ensures touched { (places : List ℕ) → AreTouched cells.old.items places
        → AreTouched cells.new.items places }
    ensures fits { length list.new.items ≤ length list.old.items + 1 }
    ensures capacity { vec_capacity list.new ≡ vec_capacity list.old }
{
    let moved = cells[place];
    cells[place] = moved.at_rest();
    if has_net(&moved) {
        list.push_reserved(moved);
    }
}

// Moves the nets of all cells into the list. The cells keep their codes.
fn unload_all(cells: &mut Vec<CodeNet>, touched: &[u16], list: &mut Vec<CodeNet>)
    requires cells { AreCells cells.old.items list.old.items }
    requires touched { AreTouched cells.old.items touched.now }
    requires nets { AreNetsAmong cells.old.items touched.now }
    requires fits { length list.old.items ≤ 1024 }
    requires room { 2048 ≤ vec_capacity list.old }

    ensures cells { AreCells cells.new.items list.new.items }
    ensures totals { (code : CodeId)
        → total (cells.new.items ++ list.new.items) code
        ≡ total (cells.old.items ++ list.old.items) code }
    ensures none { AreNetsAmong cells.new.items [] }
    ensures touched { AreTouched cells.new.items touched.now }
    ensures capacity { vec_capacity list.new ≡ vec_capacity list.old }
{
    for place in touched {
        unload(cells, list, *place as usize);
    }
}

// Whether one of the cells has no net.
fn some_rest(cells: &[CodeNet], touched: &[u16]) -> bool
    requires long { length cells.now ≡ 1024 }
    requires places { All (λ k. k < 1024) touched.now }
    ensures { result ≡ list_any (λ k. is_zero (slice_index_or cells.now k (nothing_at 0)).by)
        touched.now }
{
    for place in touched {
        if !has_net(&cells[*place as usize]) {
            return true;
        }
    }
    false
}

// Moves the nets of all cells into the list. Where each cell that was touched has one, the cells keep their codes, and else
// none does: so a flush goes over a cell whose code didn't move at most once, and forgets it.
fn move_out(cells: &mut Vec<CodeNet>, touched: &mut Vec<u16>, list: &mut Vec<CodeNet>)
    requires cells { AreCells cells.old.items list.old.items }
    requires touched { AreTouched cells.old.items touched.old.items }
    requires fits { length list.old.items ≤ 1024 }
    requires room { 2048 ≤ vec_capacity list.old }

    ensures cells { AreCells cells.new.items list.new.items }
    ensures touched { AreTouched cells.new.items touched.new.items }
    ensures rest { AreAtRest cells.new.items }
    ensures totals { (code : CodeId)
        → total (cells.new.items ++ list.new.items) code
        ≡ total (cells.old.items ++ list.old.items) code }
    ensures places { vec_capacity touched.new ≡ vec_capacity touched.old }
    ensures capacity { vec_capacity list.new ≡ vec_capacity list.old }
{
    if some_rest(cells, touched) {
        drain(cells, touched, list);
        touched.clear();
        return;
    }
    unload_all(cells, touched, list);
}

// Sorts the nets, and drops those of 0.
fn settle(nets: &mut Vec<CodeNet>)
    requires once { AreOnce nets.old.items }
    ensures items { nets.new.items ≡ settled nets.old.items }
    ensures capacity { vec_capacity nets.new ≡ vec_capacity nets.old }
{
    if nets.len() > 1 {
        sort(nets);
    } else if are_zero(nets) {
        nets.clear();
    }
}

// Sorts more than one net, and drops those of 0. Apart, since most publications change one code: what a sort needs of
// registers would be saved by each.
#[inline(never)]
fn sort(nets: &mut Vec<CodeNet>)
    requires once { AreOnce nets.old.items }
    ensures items { nets.new.items ≡ settled nets.old.items }
    ensures capacity { vec_capacity nets.new ≡ vec_capacity nets.old }
{
    turn(nets);
    if rises(nets) {
        return;
    }
    nets.retain(|net| has_net(net));
    nets.sort_unstable_by_key(|net| (net.serial, net.slot));
}

// Whether each has a net, and a greater serial than the one before: then there is nothing to sort.
fn rises(nets: &[CodeNet]) -> bool
    ensures { result ≡ true → IsRising None nets.now }
{
    let mut last = None;
    let mut rest = nets;
    while let Some((net, others)) = rest.split_first() {
        let code = net.code();
        if !(has_net(net) && is_above(last, code)) {
            return false;
        }
        last = Some(code);
        rest = others;
    }
    true
}

#[inline(always)]
fn is_above(last: Option<CodeId>, code: CodeId) -> bool
    ensures { result ≡ true → upto last code ≡ false }
{
    match last {
        Some(last) => last.serial < code.serial,
        None => true,
    }
}

// Turns the list round where it begins falling. Codes come off a stack in the reverse order of
// their calls: those that rose on the way down then fall, and a sort would move each past all others.
fn turn(nets: &mut Vec<CodeNet>)
    ensures same { IsPermutation nets.old.items nets.new.items }
    ensures capacity { vec_capacity nets.new ≡ vec_capacity nets.old }
{
    if nets.len() > 1 && nets[1].code().serial < nets[0].code().serial {
        nets.reverse();
    }
}

fn are_zero(nets: &[CodeNet]) -> bool
    ensures { result ≡ (length (filter (λ net. not (is_zero net.by)) nets.now) == 0) }
{
    for net in nets {
        if has_net(net) {
            return false;
        }
    }
    true
}

// Whether no cell has a net. Those that aren't touched have none.
fn are_back(cells: &[CodeNet], touched: &[u16]) -> bool
    requires long { length cells.now ≡ 1024 }
    requires nets { (k : ℕ) (d : Change) → k < 1024
        → is_zero (slice_index_or cells.now k d).by ≡ false → is_in k touched.now ≡ true }
    requires places { All (λ k. k < 1024) touched.now }
    ensures { result ≡ (length (filter (λ net. not (is_zero net.by)) cells.now) == 0) }
{
    for place in touched {
        if has_net(&cells[*place as usize]) {
            return false;
        }
    }
    true
}

// How many nets aren't 0.
fn nonzero(nets: &[CodeNet]) -> usize
    ensures { result ≡ count_by (λ net. not (is_zero net.by)) nets.now }
{
    nets.iter().filter(|net| has_net(net)).count()
}

// The sum of the nets of the serial's codes.
fn net_sum(nets: &[CodeNet], serial: u64) -> i32
    requires few { length nets.now ≤ 1024 }
    requires small { AreSmall nets.now }
    ensures value { result ≡ net_sum serial nets.now }
    ensures bound { (pos 0 ≤ℤ (result +ℤ pos 262144)) × (result ≤ℤ pos 262144) }
{
    let mut sum = 0i32;
    for net in nets {
        let net = net.change();
        if net.code.serial == serial {
            sum += net.by;
        }
    }
    sum
}
