ghost use Rattle.std.specs.Prelude.{◌≡◌, ◌≢◌, ◌-◌, [], ◌∷◌, ◌++◌, length, take, OnOk, OnErr};

use std::alloc::{AllocError, Global};
use std::fmt;
use std::marker::Model;

/// Where in a script: the number of a method, of an item in it, of an item in that one's body, and so on.
/// The empty place is the document. Contracts see a place as this list of numbers.
#[derive(Debug, Drop)]
pub struct Place {
    numbers: Vec<usize>,
}

impl Model for Place {
    ghost use Rattle.std.specs.Prelude.{ℕ, List};

    ghost Value = { List ℕ };

    ghost view = { λ p. p.numbers.items };
}

impl Place {
    /// The place of these numbers.
    pub fn new(numbers: Vec<usize>) -> Place
        ensures { result ≡ numbers.items }
    {
        Place { numbers }
    }

    /// The place of the document.
    pub fn document(alloc: Global) -> Place
        ensures { result ≡ [] }
    {
        Place {
            numbers: Vec::new(alloc),
        }
    }

    /// The numbers, the method's first.
    pub fn numbers(&self) -> &[usize]
        ensures { result.now ≡ self.now }
    {
        self.numbers.as_slice()
    }

    /// The numbers, given back without taking memory.
    pub fn into_numbers(self) -> Vec<usize>
        ensures { result.items ≡ self }
    {
        self.numbers
    }

    /// Goes to the item of that number in the body here. An `Err` changes nothing.
    pub fn enter(&mut self, number: usize) -> Result<(), AllocError>
        ensures ok { OnOk result (self.new ≡ self.old ++ number ∷ []) }
        ensures err { OnErr result (self.new ≡ self.old) }
    {
        self.numbers.push(number)?;
        Ok(())
    }

    /// Goes back to the place that this one is in. The document's place doesn't change.
    pub fn leave(&mut self)
        ensures { self.new ≡ take (length self.old - 1) self.old }
    {
        let _ = self.numbers.pop();
    }
}

impl fmt::Display for Place {
    ghost use Rattle.std.specs.Prelude.{Some};
    ghost use Rattle.script.specs.Texts.{place_text};

    ghost output = { λ place. Some (place_text place) };

    fn fmt<W: fmt::Write>(&self, f: &mut fmt::Formatter<W>) -> fmt::Result {
        let Some((first, inner)) = self.numbers.as_slice().split_first() else {
            return write!(f, "-");
        };
        write!(f, "{first}")?;
        for number in inner {
            write!(f, ".{number}")?;
        }
        Ok(())
    }
}
