// All codes ever installed. They exist only in proofs: a freed code needs no memory.
ghost use Rattle.std.specs.Prelude.{◌≡◌, [], List};
ghost use Rattle.std.specs.Coded.{coded_list};
ghost use base.Fml.{ftrue};
ghost use Rattle.method_table.specs.declared.Code.{Code as OneCode};
ghost use Rattle.method_table.specs.Stored.{codes_code};

use crate::CodeState;
use std::marker::Model;

#[derive(Drop)]
pub(crate) struct History {
    ghost codes: { List OneCode } by { codes_code },
}

impl Model for History {
    ghost also_owns = { λ _. ftrue };
}

// A change of the table's codes.
#[derive(Clone, Copy, Drop)]
pub(crate) enum Edit {
    Install { method: u32, slot: u32 },
    Become { serial: u64, state: CodeState },
}

impl History {
    ghost use Rattle.method_table.specs.Edited.{edited};

    pub(crate) fn new() -> History
        ensures { result.codes ≡ [] }
    {
        History {}
    }

    pub(crate) fn then(&self, _edit: &Edit) -> History
        ensures { result.codes ≡ edited self.now.codes _edit.now }
    {
        History {}
    }
}
