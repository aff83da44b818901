// The beginning of a line, as far as it matters.
ghost use Rattle.std.specs.Prelude.{◌≡◌, ◌++◌, ◌<◌, ◌≤◌, ◌==◌, if◌then◌else◌, [], ℕ, List, length, take};

use std::marker::Model;

/// As much of a line as matters: one of more than 1024 bytes is bad.
const ROOM: usize = 1025;

/// The beginning of a line whose end wasn't read yet, as far as it matters.
#[derive(Drop)]
pub struct Held {
    bytes: [u8; 1025],
    len: usize,
}

impl Model for Held {
    ghost use Rattle.std.specs.Prelude.{List, ℕ, take, ◌≤◌};

    ghost Value = { List ℕ };

    ghost view = { λ h. take h.len h.bytes };

    ghost invariant = { λ h. h.len ≤ 1025 };
}

impl Held {
    pub fn new() -> Held
        ensures { result ≡ [] }
    {
        Held {
            bytes: [0; 1025],
            len: 0,
        }
    }

    pub fn is_empty(&self) -> bool
        ensures { result ≡ (length self.now == 0) }
    {
        self.len == 0
    }

    pub fn as_slice(&self) -> &[u8]
        ensures { result.now ≡ self.now }
    {
        &self.bytes[..self.len]
    }

    pub fn clear(&mut self)
        ensures { self.new ≡ [] }
    {
        self.len = 0;
    }

    /// Adds bytes to a line whose beginning is held.
    pub fn join(&mut self, piece: &[u8])
        ensures { self.new
            ≡ (if length self.old == 0 then self.old else take 1025 (self.old ++ piece.now)) }
    {
        if !self.is_empty() {
            self.add(piece);
        }
    }

    /// The line that the piece ends: the held bytes, or the piece if none are held.
    pub fn line<'a>(&'a self, piece: &'a [u8]) -> &'a [u8]
        ensures { result.now ≡ (if length self.now == 0 then piece.now else self.now) }
    {
        if self.is_empty() {
            piece
        } else {
            self.as_slice()
        }
    }

    /// Adds bytes, as far as there is room.
    pub fn add(&mut self, piece: &[u8])
        ensures { self.new ≡ take 1025 (self.old ++ piece.now) }
    {
        self.len = put_after(&mut self.bytes, self.len, piece);
    }
}

fn put_after(bytes: &mut [u8; 1025], len: usize, piece: &[u8]) -> usize
    requires { len ≤ 1025 }
    ensures bound { result ≤ 1025 }
    ensures bytes { take result bytes.new ≡ take 1025 (take len bytes.old ++ piece.now) }
{
    let mut at = len;
    for b in piece {
        if at >= ROOM {
            return at;
        }
        bytes[at] = *b;
        at += 1;
    }
    at
}
