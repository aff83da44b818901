ghost use Rattle.std.specs.Prelude.{◌≡◌, [], ◌∷◌, ◌++◌, OnOk, IfErr};

use std::alloc::{AllocError, Global};

/// What a script does at one step of its run.
#[derive(Clone, Copy, Debug, PartialEq, Eq)]
pub enum Mark {
    /// A call of the method of that number begins.
    In(usize),
    /// The call of the method of that number ends.
    Out(usize),
    /// A turn of a loop ends.
    Edge,
    Native,
    Vm,
    Block,
    Tick,
}

/// The maker of a script's marks. `mark` may block if its type holds the capability to block.
pub trait Steps {
    ghost use Rattle.interp.specs.declared.mark.Mark.{Mark};

    /// Why a mark is refused.
    type Refusal;

    /// What a mark may lead to.
    ghost marked: { Self → Mark → Self → Type 0 };

    /// What a refused mark may leave, and why it was refused.
    ghost refused: { Self → Mark → Self.Refusal → Self → Type 0 };

    fn mark(&mut self, mark: Mark) -> Result<(), Self::Refusal>
        ensures ok { OnOk result (marked self.old mark self.new) }
        ensures err { IfErr result (λ e. refused self.old mark e self.new) };
}

/// A fake that keeps the marks, and refuses a mark if a growth is refused.
#[derive(Debug, Drop)]
pub struct Tape {
    pub marks: Vec<Mark>,
}

impl Tape {
    /// A tape without a mark.
    pub fn new(alloc: Global) -> Tape
        ensures { result.marks.items ≡ [] }
    {
        Tape {
            marks: Vec::new(alloc),
        }
    }
}

impl Steps for Tape {
    type Refusal = AllocError;

    ghost marked = { λ s m t. t.marks.items ≡ s.marks.items ++ m ∷ [] };

    ghost refused = { λ s m e t. t.marks.items ≡ s.marks.items };

    fn mark(&mut self, mark: Mark) -> Result<(), AllocError> {
        self.marks.push(mark)?;
        Ok(())
    }
}
