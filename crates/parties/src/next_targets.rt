//! The targets of the next request.
ghost use Rattle.std.specs.Prelude.{◌≡◌, ◌++◌, ◌∷◌, [], true, IfOk, OnErr, OnOk};
ghost use Rattle.desk.specs.Fields.{at};
ghost use Rattle.parties.specs.Asked.{no_targets, targets_at};

use bodies::Name;
use desk::Desk;
use operations::job::HandshakeOp;
use std::alloc::{AllocError, Global};
use std::marker::Model;

/// The targets of the next request: names, or all threads that are live when the request is submitted.
#[derive(Drop)]
pub struct NextTargets {
    names: Vec<u64>,
    are_all: bool,
}

impl Model for NextTargets {
    ghost use Rattle.parties.specs.Asked.{TargetsSeen};

    ghost Value = { TargetsSeen };

    ghost view = { λ t. record { names = t.names.items; are_all = t.are_all } };
}

impl NextTargets {
    /// Makes no targets.
    pub fn none(alloc: Global) -> NextTargets
        ensures { result ≡ no_targets }
    {
        NextTargets {
            names: Vec::new(alloc),
            are_all: false,
        }
    }

    /// Adds a name. Refused only if memory is refused.
    pub fn add(&mut self, name: u64) -> Result<(), AllocError>
        ensures added { OnOk result (self.new ≡ record self.old { names = self.old.names ++ name ∷ [] }) }
        ensures refused { OnErr result (self.new ≡ self.old) }
    {
        self.names.push(name).map_err(|_| AllocError)
    }

    /// Makes all live threads the targets, in place of the names.
    pub fn be_all(&mut self)
        ensures { self.new ≡ record { names = []; are_all = true } }
    {
        self.names.clear();
        self.are_all = true;
    }

    /// Removes all targets.
    pub fn clear(&mut self)
        ensures { self.new ≡ no_targets }
    {
        self.names.clear();
        self.are_all = false;
    }

    /// Returns the targets of a request that is submitted at this desk. Refused only if memory is refused.
    pub fn at<N: Name, J: HandshakeOp>(
        &self,
        desk: &Desk<N, J>,
        alloc: Global,
    ) -> Result<Vec<u64>, AllocError>
        ensures { IfOk result (λ v. v.items ≡ targets_at self.now (at desk.now)) }
    {
        if self.are_all {
            return desk.live();
        }
        let mut list = Vec::new(alloc);
        list.extend_from_slice(self.names.as_slice())?;
        Ok(list)
    }
}
