// The source of lines and the sink of answers.
ghost use Rattle.std.specs.Prelude.{◌≡◌, ◌==◌, ◌+◌, ◌-◌, ◌^◌, ◌<◌, ◌≤◌, ℕ, List, None, Option, length, IfOk, MatchResult, cond, if◌then◌else◌, false};
ghost use Rattle.std.specs.Io.KnownBytes.{ReadConsumes, WriteAppends};

use std::io::{Read, Write};

/// A call that failed.
#[derive(Clone, Copy, Debug, PartialEq, Eq, Drop)]
pub struct Failed;

/// Gives bytes. A failed call is counted, and no call may follow it.
pub trait Source {
    // The bytes that are left to read, if the source makes them known.
    ghost left: { Self → Option (List ℕ) };

    // How many reads gave bytes. There are at most 2^40 - 1.
    ghost reads: { Self → ℕ };

    // How many calls failed.
    ghost failures: { Self → ℕ };

    /// Reads some bytes into the buffer, and returns how many; 0 is the end.
    fn read(&mut self, buf: &mut [u8]) -> Result<usize, Failed>
        requires fresh { failures self.old ≡ 0 }
        requires few { reads self.old < 2 ^ 40 - 1 }

        ensures bound { IfOk result (λ n. n ≤ length buf.new) }
        ensures bytes { ReadConsumes (left self.old) (left self.new) result buf.new }
        ensures reads { IfOk result
            (λ n. reads self.new ≡ (if n == 0 then reads self.old else reads self.old + 1)) }
        ensures failures { MatchResult result (λ _. failures self.new ≡ 0)
            (λ _. failures self.new ≡ 1) };
}

/// Takes bytes. A failed call is counted, and no call may follow it.
pub trait Sink {
    // The bytes that the sink got, if it makes them known.
    ghost got: { Self → Option (List ℕ) };

    // How many calls failed, or took nothing.
    ghost failures: { Self → ℕ };

    /// Takes some of the bytes, at least one, and returns how many.
    fn write(&mut self, bytes: &[u8]) -> Result<usize, Failed>
        requires fresh { failures self.old ≡ 0 }
        requires some { 0 < length bytes.now }
        ensures bound { IfOk result (λ n. (0 < n) × (n ≤ length bytes.now)) }
        ensures bytes { WriteAppends (got self.old) (got self.new) result bytes.now }
        ensures failures { MatchResult result (λ _. failures self.new ≡ 0)
            (λ _. failures self.new ≡ 1) };
}

/// A source over a reader of std.
#[derive(Drop)]
pub struct FromReader<R> {
    inner: R,
    reads: u64,
    failed: bool,
}

impl<R: Read> FromReader<R> {
    /// A source of the bytes that the reader has left. None of them is read yet.
    pub fn new(inner: R) -> FromReader<R>
        ensures left { ⟦<FromReader<R> as Source>⟧.left result ≡ R.remaining inner }
        ensures reads { ⟦<FromReader<R> as Source>⟧.reads result ≡ 0 }
        ensures failures { ⟦<FromReader<R> as Source>⟧.failures result ≡ 0 }
    {
        FromReader {
            inner,
            reads: 0,
            failed: false,
        }
    }
}

impl<R: Read> Source for FromReader<R> {
    ghost left = { λ s. R.remaining s.inner };

    ghost reads = { λ s. s.reads };

    ghost failures = { λ s. cond s.failed 1 0 };

    fn read(&mut self, buf: &mut [u8]) -> Result<usize, Failed> {
        match self.inner.read(buf) {
            Ok(0) => Ok(0),
            Ok(n) => {
                self.reads += 1;
                Ok(n)
            }
            Err(_) => {
                self.failed = true;
                Err(Failed)
            }
        }
    }
}

/// A sink over a writer of std.
#[derive(Drop)]
pub struct IntoWriter<W> {
    inner: W,
    refused: bool,
}

impl<W: Write> IntoWriter<W> {
    /// A sink that appends to what the writer has.
    pub fn new(inner: W) -> IntoWriter<W>
        ensures got { ⟦<IntoWriter<W> as Sink>⟧.got result ≡ W.contents inner }
        ensures failures { ⟦<IntoWriter<W> as Sink>⟧.failures result ≡ 0 }
    {
        IntoWriter {
            inner,
            refused: false,
        }
    }
}

impl<W: Write> Sink for IntoWriter<W> {
    ghost got = { λ s. W.contents s.inner };

    ghost failures = { λ s. cond s.refused 1 0 };

    fn write(&mut self, bytes: &[u8]) -> Result<usize, Failed> {
        match self.inner.write(bytes) {
            Ok(n) if n > 0 => Ok(n),
            _ => {
                self.refused = true;
                Err(Failed)
            }
        }
    }
}
