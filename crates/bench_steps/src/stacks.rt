//! Calls and returns on a stack.
ghost use Rattle.std.specs.Prelude.{◌<◌};

use frames::image::{DEPTH, Image};
use frames::{CodeId, Frame};

/// Serials of the codes below differ from this one in their last bits.
const BELOW: u64 = 1 << 20;

/// A publication has at most so many changes: each of 256 frames may be gone, and another in its place.
const CHANGES: u64 = 512;

/// The stack on which calls and returns are made. Each call says whether it succeeded.
pub trait Stack {
    fn call(&mut self, serial: u64) -> bool;

    fn ret(&mut self) -> bool;
}

/// A frame of the code. Codes whose last bits differ have slots of their own.
fn frame(serial: u64) -> Frame {
    let slot = (serial % 1024) as u32;
    Frame {
        method: 0,
        code: Some(CodeId { slot, serial }),
    }
}

// Calls and returns are functions of their own, as in a runtime. Otherwise the compiler would see that a return undoes a call.
impl Stack for Image {
    #[inline(never)]
    fn call(&mut self, serial: u64) -> bool {
        self.push(frame(serial)).is_ok()
    }

    #[inline(never)]
    fn ret(&mut self) -> bool {
        self.pop().is_ok()
    }
}

impl Stack for Vec<Frame> {
    #[inline(never)]
    fn call(&mut self, serial: u64) -> bool {
        self.len() < DEPTH && self.push(frame(serial)).is_ok()
    }

    #[inline(never)]
    fn ret(&mut self) -> bool {
        self.pop().is_some()
    }
}

/// Calls the code and returns from it, and counts how often both succeeded.
pub fn calls<S: Stack>(stack: &mut S, serial: u64, turns: u64) -> u64 {
    let mut done = 0u64;
    for _turn in 0..turns {
        if stack.call(serial) && stack.ret() {
            done = done.wrapping_add(1);
        }
    }
    done
}

/// Calls so many different codes, and counts them.
pub fn climb<S: Stack>(stack: &mut S, codes: u64) -> u64 {
    let mut done = 0u64;
    for turn in 0..codes {
        done = done.wrapping_add(u64::from(stack.call(BELOW ^ turn)));
    }
    done
}

/// Returns from all, and counts them.
fn fall<S: Stack>(stack: &mut S) -> u64 {
    let mut done = 0u64;
    for _turn in 0..DEPTH {
        done = done.wrapping_add(u64::from(stack.ret()));
    }
    done
}

/// Publishes, and adds up the serials that change.
pub fn publish(image: &mut Image) -> u64 {
    if image.begin().is_err() {
        return 0;
    }
    let mut sum = 0u64;
    for _turn in 0..CHANGES {
        match image.next_change() {
            Some(change) => sum = sum.wrapping_add(change.code.serial),
            None => break,
        }
    }
    sum.wrapping_add(u64::from(image.end().is_ok()))
}

/// Calls so many codes and publishes, then returns from all and publishes.
pub fn rounds(image: &mut Image, codes: u64, turns: u64) -> u64 {
    let mut sum = 0u64;
    for _turn in 0..turns {
        sum = sum.wrapping_add(climb(image, codes));
        sum = sum.wrapping_add(publish(image));
        sum = sum.wrapping_add(fall(image));
        sum = sum.wrapping_add(publish(image));
    }
    sum
}
