// The slots of unfreed codes by serial, so that no search is needed.
ghost use Rattle.std.specs.Prelude.{◌≡◌, OnOk, OnErr, Some, None, ℕ};
ghost use Rattle.method_table.specs.Slots.{slot_in};
ghost use Rattle.method_table.specs.Kept.{Puts};

use std::alloc::AllocError;
use std::collections::HashMap;

pub(crate) type Slots = HashMap<u64, u32>;

pub(crate) fn slot_of(slots: &Slots, serial: u64) -> Option<u32>
    ensures { result ≡ slot_in slots.now serial }
{
    slots.get(&serial).copied()
}

pub(crate) fn note(slots: &mut Slots, serial: u64, slot: u32) -> Result<(), AllocError>
    ensures ok { OnOk result (Puts (slot_in slots.old) (slot_in slots.new) serial (Some slot)) }
    ensures err { OnErr result ((other : ℕ) → slot_in slots.new other ≡ slot_in slots.old other) }
{
    slots.insert(serial, slot)?;
    Ok(())
}

pub(crate) fn forget(slots: &mut Slots, serial: u64)
    ensures { Puts (slot_in slots.old) (slot_in slots.new) serial None }
{
    slots.remove(&serial);
}
