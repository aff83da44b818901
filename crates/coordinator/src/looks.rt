//! How many looks the coordinator makes for something before it waits in another way.
ghost use Rattle.std.specs.Prelude.{◌≡◌, ◌-◌, min};

use std::marker::Model;

/// The number of looks left. Contracts see it.
#[derive(Drop)]
pub struct Looks {
    left: u32,
}

impl Model for Looks {
    ghost use Rattle.std.specs.Prelude.{ℕ};

    ghost Value = { ℕ };

    ghost view = { λ l. l.left };
}

impl Looks {
    pub fn new(left: u32) -> Looks
        ensures { result ≡ left }
    {
        Looks { left }
    }

    /// Returns how many looks may be made in one place, at most `patience`.
    #[inline(always)]
    pub fn up_to(&self, patience: u32) -> u32
        ensures { result ≡ min self.now patience }
    {
        if self.left < patience {
            self.left
        } else {
            patience
        }
    }

    /// Takes off the looks that were made.
    #[inline(always)]
    pub fn spend(&mut self, made: u32)
        ensures { self.new ≡ self.old - made }
    {
        self.left = self.left.saturating_sub(made);
    }

    /// Leaves no look.
    #[inline(always)]
    pub fn end(&mut self)
        ensures { self.new ≡ 0 }
    {
        self.left = 0;
    }
}
