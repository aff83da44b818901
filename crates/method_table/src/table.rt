// The method table: a record for each slot, and the code in use for each method.
ghost use Rattle.std.specs.Prelude.{◌≡◌, ℕ, ◌+◌, ◌<◌, ◌≤◌, List, [], ◌∷◌, length, true, false, not, Some, None, Option, option_map, slice_get, slice_set, IfOk, OnOk, OnErr, IfErr, IfSome, IfNone, find, ◌==◌, ◌&&◌};
ghost use Rattle.method_table.specs.Codes.{takes_slot, id_of, code_of, unfreed, in_use_for, free_slot, next_serial, with_code, with_state, without_use};
ghost use Rattle.method_table.specs.Kept.{holds, least_free, with_record};
ghost use Rattle.method_table.specs.Numbers.{below};
ghost use Rattle.method_table.specs.declared.Code.{Code};
ghost use Rattle.method_table.specs.declared.CodeState.TheVariants.{NotEntrant, Zombie, Freed};
ghost use Rattle.method_table.specs.TableView.{IsTable, install_fault, reason, invalidate_fault, retire_fault, free_fault, entry_of};

use crate::history::{Edit, History};
use crate::slot_cache::SlotCache;
use crate::slots::{Slots, forget, note, slot_of};
use crate::{Code, CodeState};
use frames::{CodeId, LAST};
use std::alloc::{AllocError, Global};
use std::collections::HashMap;
use std::marker::Model;

/// Why an install is refused: the first cause in this order.
#[derive(Clone, Copy, Debug, PartialEq, Eq, Drop)]
pub enum InstallFault {
    NoSuchMethod,
    TableFull,
    SerialsSpent,
    NoMemory,
}

/// The result of an install: the new code, and the code that it replaced, which is not entrant from then on.
#[derive(Clone, Copy, Debug, PartialEq, Eq, Drop)]
pub struct Installed {
    pub code: CodeId,
    pub replaced: Option<CodeId>,
}

/// Why an invalidation is refused: the first cause in this order.
#[derive(Clone, Copy, Debug, PartialEq, Eq, Drop)]
pub enum InvalidateFault {
    Unknown,
    NotInUse,
}

/// Why a code doesn't become a zombie: the first cause in this order.
#[derive(Clone, Copy, Debug, PartialEq, Eq, Drop)]
pub enum RetireFault {
    Unknown,
    NotNotEntrant,
}

/// Why a code isn't freed: the first cause in this order.
#[derive(Clone, Copy, Debug, PartialEq, Eq, Drop)]
pub enum FreeFault {
    Unknown,
    NotZombie,
}

/// The result of a call of a method through a code.
#[derive(Clone, Copy, Debug, PartialEq, Eq, Drop)]
pub enum Entry {
    Enters(CodeId),
    NotOf,
    WrongMethod,
}

/// All codes ever installed, at most one in use for each method.
#[derive(Drop)]
pub struct MethodTable {
    slots: u32,
    next: u64,
    records: Vec<Code>,
    index: Slots,
    guesses: SlotCache,
    current: Vec<Option<CodeId>>,
    taken: usize,
    history: History,
}

impl Model for MethodTable {
    ghost use Rattle.std.specs.Prelude.{length};
    ghost use Rattle.method_table.specs.TableView.{TableView};
    ghost use Rattle.method_table.specs.Kept.{IsKept};
    ghost use Rattle.method_table.specs.Slots.{slot_in};

    ghost Value = { TableView };

    ghost view = { λ t. record {
      codes = t.history.codes;
      slots = t.slots;
      methods = length t.current.items;
    } };

    ghost invariant = { λ t. IsKept t.history.codes t.slots t.next t.records.items (slot_in t.index)
        t.current.items t.taken };
}

// The least slot without an unfreed code. All slots below `taken` have one.
fn least_free(records: &[Code], slots: u32, taken: usize) -> Option<u32>
    requires few { length records.now ≤ slots }
    requires full { (slot : ℕ) → slot < taken → holds (slice_get records.now slot) ≡ true }
    ensures { result ≡ least_free records.now slots }
{
    for slot in taken..records.len() {
        if !records[slot].state.takes_slot() {
            return Some(slot as u32);
        }
    }
    if records.len() < slots as usize {
        Some(records.len() as u32)
    } else {
        None
    }
}

// Stores a record in its slot, or at the end.
fn put(records: &mut Vec<Code>, code: Code) -> Result<(), AllocError>
    requires { code.slot ≤ length records.old.items }
    ensures ok { OnOk result (records.new.items ≡ with_record records.old.items code) }
    ensures err { OnErr result (records.new.items ≡ records.old.items) }
{
    if code.slot as usize == records.len() {
        records.push(code)?;
    } else {
        records[code.slot as usize] = code;
    }
    Ok(())
}

fn set_state(records: &mut Vec<Code>, slot: u32, state: CodeState)
    requires { slot < length records.old.items }
    ensures { (code : Code) → slice_get records.old.items slot ≡ Some code
        → records.new.items ≡ slice_set records.old.items slot (record code { state = state }) }
{
    records[slot as usize].state = state;
}

// Makes the replaced code, if any, not entrant.
fn replace(records: &mut Vec<Code>, history: &mut History, old: Option<CodeId>)
    requires { IfSome old (λ id. id.slot < length records.old.items) }
    ensures codes { IfSome old
        (λ id. history.new.codes ≡ with_state history.old.codes id.serial NotEntrant) }
    ensures record { IfSome old (λ id. (code : Code)
        → slice_get records.old.items id.slot ≡ Some code
        → records.new.items ≡ slice_set records.old.items id.slot
        (record code { state = NotEntrant })) }
    ensures none { IfNone old ((history.new.codes ≡ history.old.codes)
        × (records.new.items ≡ records.old.items)) }
{
    if let Some(id) = old {
        set_state(records, id.slot, CodeState::NotEntrant);
        *history = history.then(&Edit::Become {
            serial: id.serial,
            state: CodeState::NotEntrant,
        });
    }
}

impl MethodTable {
    /// Makes an empty table with this many slots and methods.
    ///
    /// # Errors
    /// Memory is refused.
    pub fn new(alloc: Global, slots: u32, methods: u32) -> Result<MethodTable, AllocError>
        ensures { IfOk result
            (λ table. table ≡ record { codes = []; slots = slots; methods = methods }) }
    {
        Ok(MethodTable {
            slots,
            next: 1,
            records: Vec::new(alloc),
            index: HashMap::new(alloc),
            guesses: SlotCache::new(alloc)?,
            current: vec![in alloc; None; methods as usize]?,
            taken: 0,
            history: History::new(),
        })
    }

    /// Returns why an install for the method would be refused, apart from `NoMemory`.
    pub fn refusal(&self, method: u64) -> Option<InstallFault>
        ensures { result ≡ install_fault self.now method }
    {
        self.slot_for(method).err()
    }

    // The slot of the method's next code.
    fn slot_for(&self, method: u64) -> Result<u32, InstallFault>
        ensures slot { IfOk result (λ slot. free_slot self.now.codes self.now.slots ≡ Some slot) }
        ensures accepted { OnOk result (install_fault self.now method ≡ None) }
        ensures refused { IfErr result (λ fault. install_fault self.now method ≡ Some fault) }
    {
        if method >= self.current.len() as u64 {
            return Err(InstallFault::NoSuchMethod);
        }
        let Some(slot) = least_free(&self.records, self.slots, self.taken) else {
            return Err(InstallFault::TableFull);
        };
        if self.next > LAST {
            return Err(InstallFault::SerialsSpent);
        }
        Ok(slot)
    }

    /// Installs a new code for the method, with the next serial and the least free slot. The method's former code in
    /// use becomes not entrant.
    ///
    /// # Errors
    /// The first cause in the order of `InstallFault`; the table is unchanged.
    pub fn install(&mut self, method: u64) -> Result<Installed, InstallFault>
        ensures slot { IfOk result
            (λ r. free_slot self.old.codes self.old.slots ≡ Some r.code.slot) }
        ensures in_slots { IfOk result (λ r. r.code.slot < self.old.slots) }
        ensures serial { IfOk result (λ r. r.code.serial ≡ next_serial self.old.codes) }
        ensures replaced { IfOk result
            (λ r. r.replaced ≡ option_map id_of (in_use_for self.old.codes method)) }
        ensures codes { IfOk result
            (λ r. self.new
            ≡ record self.old {
              codes = with_code
                  (without_use self.old.codes (in_use_for self.old.codes method)) method r.code.slot;
            }) }
        ensures accepted { OnOk result (install_fault self.old method ≡ None) }
        ensures refused { IfErr result (λ fault. install_fault self.old method ≡ reason fault) }
        ensures sound { IsTable self.new }

        ensures unchanged { OnErr result (self.new ≡ self.old) }
    {
        let slot = match self.slot_for(method) {
            Ok(slot) => slot,
            Err(fault) => return Err(fault),
        };
        let code = Code {
            serial: self.next,
            slot,
            method: method as u32,
            state: CodeState::InUse,
        };
        let replaced = self.current[method as usize];
        let Ok(()) = note(&mut self.index, code.serial, slot) else {
            return Err(InstallFault::NoMemory);
        };
        let Ok(()) = put(&mut self.records, code) else {
            forget(&mut self.index, code.serial);
            return Err(InstallFault::NoMemory);
        };
        self.guesses.put(code.serial, slot);
        replace(&mut self.records, &mut self.history, replaced);
        let id = CodeId {
            slot,
            serial: code.serial,
        };
        self.current[method as usize] = Some(id);
        self.next += 1;
        self.taken = slot as usize + 1;
        self.history = self.history.then(&Edit::Install {
            method: code.method,
            slot,
        });
        Ok(Installed { code: id, replaced })
    }

    /// Makes a code in use not entrant: no thread may enter it from then on.
    ///
    /// # Errors
    /// The first cause in the order of `InvalidateFault`; the table is unchanged.
    pub fn invalidate(&mut self, serial: u64) -> Result<(), InvalidateFault>
        ensures codes { OnOk result (self.new
            ≡ record self.old { codes = with_state self.old.codes serial NotEntrant }) }
        ensures accepted { OnOk result (invalidate_fault (unfreed self.old.codes serial) ≡ None) }
        ensures refused { IfErr result
            (λ fault. invalidate_fault (unfreed self.old.codes serial) ≡ Some fault) }
        ensures sound { IsTable self.new }
        ensures unchanged { OnErr result (self.new ≡ self.old) }
    {
        let Some(code) = self.find(serial) else {
            return Err(InvalidateFault::Unknown);
        };
        if !code.state.is_in_use() {
            return Err(InvalidateFault::NotInUse);
        }
        set_state(&mut self.records, code.slot, CodeState::NotEntrant);
        self.current[code.method as usize] = None;
        self.history = self.history.then(&Edit::Become {
            serial,
            state: CodeState::NotEntrant,
        });
        Ok(())
    }

    /// Makes a code not entrant a zombie. The caller must know that no frame of the code is left.
    ///
    /// # Errors
    /// The first cause in the order of `RetireFault`; the table is unchanged.
    pub fn retire(&mut self, serial: u64) -> Result<(), RetireFault>
        ensures codes { OnOk result (self.new
            ≡ record self.old { codes = with_state self.old.codes serial Zombie }) }
        ensures accepted { OnOk result (retire_fault (unfreed self.old.codes serial) ≡ None) }
        ensures refused { IfErr result
            (λ fault. retire_fault (unfreed self.old.codes serial) ≡ Some fault) }
        ensures sound { IsTable self.new }
        ensures unchanged { OnErr result (self.new ≡ self.old) }
    {
        let Some(code) = self.find(serial) else {
            return Err(RetireFault::Unknown);
        };
        if !code.state.is_not_entrant() {
            return Err(RetireFault::NotNotEntrant);
        }
        set_state(&mut self.records, code.slot, CodeState::Zombie);
        self.history = self.history.then(&Edit::Become {
            serial,
            state: CodeState::Zombie,
        });
        Ok(())
    }

    /// Frees a zombie and its slot.
    ///
    /// # Errors
    /// The first cause in the order of `FreeFault`; the table is unchanged.
    pub fn free(&mut self, serial: u64) -> Result<(), FreeFault>
        ensures codes { OnOk result (self.new
            ≡ record self.old { codes = with_state self.old.codes serial Freed }) }
        ensures accepted { OnOk result (free_fault (unfreed self.old.codes serial) ≡ None) }
        ensures refused { IfErr result
            (λ fault. free_fault (unfreed self.old.codes serial) ≡ Some fault) }
        ensures sound { IsTable self.new }
        ensures unchanged { OnErr result (self.new ≡ self.old) }
    {
        let Some(code) = self.find(serial) else {
            return Err(FreeFault::Unknown);
        };
        if !code.state.is_zombie() {
            return Err(FreeFault::NotZombie);
        }
        set_state(&mut self.records, code.slot, CodeState::Freed);
        forget(&mut self.index, serial);
        self.taken = self.taken.min(code.slot as usize);
        self.history = self.history.then(&Edit::Become {
            serial,
            state: CodeState::Freed,
        });
        Ok(())
    }

    /// Returns the code's state, or `None` if the serial was never given out.
    pub fn state(&self, serial: u64) -> Option<CodeState>
        ensures { result ≡ option_map (λ code. code.state) (code_of self.now.codes serial) }
    {
        let _ = &self.next;
        if serial == 0 {
            return None;
        }
        if serial >= self.next {
            return None;
        }
        let Some(code) = self.find(serial) else {
            return Some(CodeState::Freed);
        };
        Some(code.state)
    }

    /// Returns the method's code in use.
    pub fn current(&self, method: u64) -> Option<CodeId>
        ensures sound { IsTable self.now }
        ensures value { result ≡ option_map id_of (in_use_for self.now.codes method) }
    {
        if method < self.current.len() as u64 {
            self.current[method as usize]
        } else {
            None
        }
    }

    /// Returns the code of the serial, or `None` if the serial was never given out or the code is freed.
    pub fn find(&self, serial: u64) -> Option<Code>
        ensures sound { IsTable self.now }
        ensures value { result ≡ unfreed self.now.codes serial }
    {
        let slot = self.guesses.slot_of(serial) as usize;
        if slot < self.records.len() {
            let code = self.records[slot];
            if code.serial == serial {
                if code.state.takes_slot() {
                    return Some(code);
                }
            }
        }
        self.noted(serial)
    }

    // Looks the serial up in the index. This function isn't inlined, since mostly the guess is right.
    #[inline(never)]
    fn noted(&self, serial: u64) -> Option<Code>
        ensures sound { IsTable self.now }
        ensures value { result ≡ unfreed self.now.codes serial }
    {
        match slot_of(&self.index, serial) {
            Some(slot) => Some(self.records[slot as usize]),
            None => None,
        }
    }

    /// Returns the result of a call of the method through the code, or `None` if the serial was never given out.
    pub fn entry(&self, method: u64, serial: u64) -> Option<Entry>
        ensures { result ≡ option_map (entry_of method) (code_of self.now.codes serial) }
    {
        let _ = &self.next;
        match self.current(method) {
            Some(id) if id.serial == serial => Some(Entry::Enters(id)),
            _ => self.other_entry(method, serial),
        }
    }

    #[cold]
    fn other_entry(&self, method: u64, serial: u64) -> Option<Entry>
        ensures { result ≡ option_map (entry_of method) (code_of self.now.codes serial) }
    {
        let _ = &self.next;
        let Some(code) = self.find(serial) else {
            return match self.state(serial) {
                Some(_) => Some(Entry::WrongMethod),
                None => None,
            };
        };
        Some(entry_of(method, code))
    }

    /// Returns the number of slots.
    pub fn slots(&self) -> u32
        ensures value { result ≡ self.now.slots }
        ensures sound { IsTable self.now }
    {
        let _ = &self.records;
        self.slots
    }

    /// Returns the number of methods.
    pub fn methods(&self) -> usize
        ensures { result ≡ self.now.methods }
    {
        self.current.as_slice().len()
    }
}

fn entry_of(method: u64, code: Code) -> Entry
    ensures { result ≡ entry_of method code }
{
    if code.state.is_in_use() {
        if code.method as u64 == method {
            Entry::Enters(CodeId {
                slot: code.slot,
                serial: code.serial,
            })
        } else {
            Entry::NotOf
        }
    } else {
        Entry::WrongMethod
    }
}
