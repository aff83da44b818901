//! A reader and a writer that give and take little, or fail.
use std::alloc::Global;
use std::io::{self, Read, Write};

/// Gives its bytes, at most `step` a call. The call of number `bad_call` fails; where that is 0 none does.
#[derive(Drop)]
pub struct Drip<'a> {
    pub rest: &'a [u8],
    step: usize,
    bad_call: usize,
    pub calls: usize,
}

impl<'a> Drip<'a> {
    pub fn new(rest: &'a [u8], step: usize, bad_call: usize) -> Drip<'a> {
        Drip {
            rest,
            step,
            bad_call,
            calls: 0,
        }
    }
}

impl<'a> Read for Drip<'a> {
    fn read(&mut self, buf: &mut [u8]) -> io::Result<usize> {
        self.calls = self.calls.saturating_add(1);
        if self.calls == self.bad_call {
            return Err(io::Error::from(io::ErrorKind::BrokenPipe));
        }
        let n = self.step.min(buf.len()).min(self.rest.len());
        let (given, rest) = self.rest.split_at(n);
        buf[..n].copy_from_slice(given);
        self.rest = rest;
        Ok(n)
    }
}

/// Keeps what it is given, at most `step` bytes a call. The call of number `bad_call` fails, or takes nothing; where that is 0 none
/// does.
#[derive(Drop)]
pub struct Basin {
    pub got: Vec<u8>,
    step: usize,
    bad_call: usize,
    takes_nothing: bool,
    pub calls: usize,
}

impl Basin {
    pub fn new(alloc: Global, step: usize, bad_call: usize, takes_nothing: bool) -> Basin {
        Basin {
            got: Vec::new(alloc),
            step,
            bad_call,
            takes_nothing,
            calls: 0,
        }
    }
}

impl Write for Basin {
    fn write(&mut self, buf: &[u8]) -> io::Result<usize> {
        self.calls = self.calls.saturating_add(1);
        if self.calls == self.bad_call {
            if self.takes_nothing {
                return Ok(0);
            }
            return Err(io::Error::from(io::ErrorKind::BrokenPipe));
        }
        let n = self.step.min(buf.len());
        self.got.extend_from_slice(&buf[..n])?;
        Ok(n)
    }

    fn flush(&mut self) -> io::Result<()> {
        Ok(())
    }
}
