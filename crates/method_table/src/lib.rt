//! All codes ever installed, with their slots and states.
//! `system` and `desk` keep their codes in it.
//! Read `src/table.rt` first, then `specs/Codes.antt` and `specs/Edited.antt`.
#![tactic(auto)]

ghost use Rattle.std.specs.Prelude.{◌≡◌};
ghost use Rattle.method_table.specs.Codes.{is_in_use, is_not_entrant, is_zombie, takes_slot};

mod fault_texts;
mod history;
pub mod laws;
mod slot_cache;
mod slots;
pub mod table;

/// Whether threads may enter a code, and whether frames of it may still stand on stacks.
#[derive(Clone, Copy, Debug, PartialEq, Eq, Drop)]
pub enum CodeState {
    InUse,
    NotEntrant,
    Zombie,
    Freed,
}

impl CodeState {
    pub(crate) fn is_in_use(self) -> bool
        ensures { result ≡ is_in_use self }
    {
        match self {
            CodeState::InUse => true,
            CodeState::NotEntrant | CodeState::Zombie | CodeState::Freed => false,
        }
    }

    pub(crate) fn is_not_entrant(self) -> bool
        ensures { result ≡ is_not_entrant self }
    {
        match self {
            CodeState::NotEntrant => true,
            CodeState::InUse | CodeState::Zombie | CodeState::Freed => false,
        }
    }

    pub(crate) fn is_zombie(self) -> bool
        ensures { result ≡ is_zombie self }
    {
        match self {
            CodeState::Zombie => true,
            CodeState::InUse | CodeState::NotEntrant | CodeState::Freed => false,
        }
    }

    pub(crate) fn takes_slot(self) -> bool
        ensures { result ≡ takes_slot self }
    {
        match self {
            CodeState::Freed => false,
            CodeState::InUse | CodeState::NotEntrant | CodeState::Zombie => true,
        }
    }
}

/// A code: its serial, the slot in which it stands, its method and its state.
#[derive(Clone, Copy, Debug, PartialEq, Eq, Drop)]
pub struct Code {
    pub serial: u64,
    pub slot: u32,
    pub method: u32,
    pub state: CodeState,
}
