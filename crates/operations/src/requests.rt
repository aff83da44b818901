// Valid requests and their targets.
ghost use Rattle.std.specs.Prelude.{◌≡◌, ◌&&◌, true, nat_le, length, IfOk, IsOk};
ghost use Rattle.operations.specs.Names.{among, is_distinct, is_rising, is_below_first};
ghost use Rattle.operations.specs.Requests.{is_census, kind_of, is_target, has_targets, are_targets};

use crate::{Kind, Request, Targets};
use std::alloc::{AllocError, Global};

/// How many targets a handshake can have.
pub const TARGETS: usize = 64;

impl Request {
    pub fn kind(&self) -> Kind
        ensures { result ≡ kind_of self.now }
    {
        match self {
            Request::Handshake { .. } => Kind::Handshake,
            Request::Census => Kind::Census,
        }
    }

    /// Returns whether the thread is a target: a handshake lists its targets, and a census targets all threads.
    pub fn is_target(&self, name: u64) -> bool
        ensures { result ≡ is_target self.now name }
    {
        match self {
            Request::Handshake { targets, .. } => is_listed(name, targets.as_slice()),
            Request::Census => true,
        }
    }

    /// Returns whether a handshake lists a name; true for a census.
    pub fn has_targets(&self) -> bool
        ensures { result ≡ has_targets self.now }
    {
        match self {
            Request::Handshake { targets, .. } => !targets.as_slice().is_empty(),
            Request::Census => true,
        }
    }

    /// Returns whether a handshake lists at most 64 names, each once; true for a census.
    pub fn are_targets(&self) -> bool
        ensures { result ≡ are_targets self.now }
    {
        match self {
            Request::Handshake { targets, .. } => are_targets_of(targets.as_slice()),
            Request::Census => true,
        }
    }

    /// Copies the request with its list of names.
    ///
    /// # Errors
    /// Memory is refused. A census needs none.
    pub fn copied(&self, alloc: Global) -> Result<Request, AllocError>
        ensures same { IfOk result (λ copy. copy ≡ self.now) }
        ensures succeeds { is_census self.now ≡ true → IsOk result }
    {
        match self {
            Request::Handshake { targets, ask } => Ok(Request::Handshake {
                targets: Targets::from_vec(Vec::from_slice(alloc, targets.as_slice())?),
                ask: *ask,
            }),
            Request::Census => Ok(Request::Census),
        }
    }
}

// The length is tested first to bound the comparisons. In rising names only neighbours are compared.
fn are_targets_of(names: &[u64]) -> bool
    ensures { result ≡ (nat_le (length names.now) 64 && is_distinct names.now) }
{
    names.len() <= TARGETS && (is_rising(names) || is_distinct(names))
}

// Most handshakes list all live threads in the order of their starts. The index of a name is then its distance from the
// first name, so this index is tried before a search.
#[tactic(auto, using(crate::proofs::Names::listed_at))]
fn is_listed(name: u64, names: &[u64]) -> bool
    ensures { result ≡ among name names.now }
{
    if names.is_empty() {
        return false;
    }
    let first = names[0];
    if first <= name {
        let behind = name - first;
        if behind < names.len() as u64 && names[behind as usize] == name {
            return true;
        }
    }
    among(name, names)
}

fn among(name: u64, names: &[u64]) -> bool
    ensures { result ≡ among name names.now }
{
    names.iter().any(|other| *other == name)
}

fn is_rising(names: &[u64]) -> bool
    ensures { result ≡ is_rising names.now }
{
    let mut rest = names;
    while let Some((name, others)) = rest.split_first() {
        if !is_below_first(*name, others) {
            return false;
        }
        rest = others;
    }
    true
}

fn is_below_first(name: u64, names: &[u64]) -> bool
    ensures { result ≡ is_below_first name names.now }
{
    match names {
        [] => true,
        [first, ..] => name < *first,
    }
}

fn is_distinct(names: &[u64]) -> bool
    ensures { result ≡ is_distinct names.now }
{
    let mut rest = names;
    while let Some((name, others)) = rest.split_first() {
        if among(*name, others) {
            return false;
        }
        rest = others;
    }
    true
}
