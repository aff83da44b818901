ghost use Rattle.std.specs.Prelude.{◌≡◌, ◌<◌, ◌^◌, IsSome, length, option_and_then, slice_get, IfSome};

use crate::items::Action;
use std::marker::Model;

/// One step of a method's flat code, which makes one mark.
#[derive(Clone, Copy, Debug, PartialEq, Eq)]
pub enum Op {
    Action(Action),
    /// The end of a turn of a loop of so many turns. The loop's body starts at that step of the method, and
    /// the loop is nested in so many others.
    Edge {
        turns: u64,
        start: usize,
        level: usize,
    },
}

/// The flat code of one method. Contracts see it as the list of its steps.
#[derive(Debug, Drop)]
pub struct Routine {
    ops: Vec<Op>,
}

impl Model for Routine {
    ghost use Rattle.std.specs.Prelude.{List};
    ghost use Rattle.script.specs.declared.code.Op.{Op};

    ghost Value = { List Op };

    ghost view = { λ r. r.ops.items };
}

impl Routine {
    pub(crate) fn new(ops: Vec<Op>) -> Routine
        ensures { result ≡ ops.items }
    {
        Routine { ops }
    }

    fn op(&self, at: usize) -> Option<Op>
        ensures value { result ≡ slice_get self.now at }
        ensures small { IsSome result → at < 2 ^ 63 }
    {
        self.ops.get(at).copied()
    }
}

/// A checked script as flat code. Contracts see it as its methods' lists of steps.
///
/// It can be run without a test: each call is of a method that exists, and each loop starts at its end or
/// before, has 1 to 1,000,000 turns, and is nested in fewer than 8 others.
#[derive(Debug, Drop)]
pub struct Code {
    methods: Vec<Routine>,
}

impl Model for Code {
    ghost use Rattle.std.specs.Prelude.{List};
    ghost use Rattle.script.specs.declared.code.Op.{Op};
    ghost use Rattle.script.specs.Layout.{IsRunnable};

    ghost Value = { List (List Op) };

    ghost view = { λ c. c.methods.items };

    ghost invariant = { λ c. IsRunnable c.methods.items };
}

impl Code {
    ghost use Rattle.script.specs.Layout.{IsRunnable, IsInRange};

    pub(crate) fn new(methods: Vec<Routine>) -> Code
        requires { IsRunnable methods.items }
        ensures { result ≡ methods.items }
    {
        Code { methods }
    }

    /// How many methods there are.
    pub fn methods(&self) -> usize
        ensures { result ≡ length self.now }
    {
        self.methods.len()
    }

    /// The step of that number in a method; none at the method's end.
    pub fn op(&self, method: usize, at: usize) -> Option<Op>
        ensures value { result ≡ option_and_then (λ r. slice_get r at) (slice_get self.now method) }
        ensures in_range { IfSome result (IsInRange (length self.now) at) }
        ensures small { IsSome result → at < 2 ^ 63 }
    {
        op_of(&self.methods, method, at)
    }
}

fn op_of(methods: &Vec<Routine>, method: usize, at: usize) -> Option<Op>
    ensures value { result ≡ option_and_then
        (λ r. slice_get r at) (slice_get methods.now.items method) }
    ensures small { IsSome result → at < 2 ^ 63 }
{
    methods.get(method)?.op(at)
}
