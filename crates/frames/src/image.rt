//! The image of one thread's stack.
ghost use Rattle.std.specs.Prelude.{◌≡◌, ◌≢◌, pos, ◌+ℤ◌, ℕ, ◌+◌, ◌<◌, ◌≤◌, List, [], ◌∷◌, ◌++◌, length, true, false, IfOk, OnOk, OnErr, IfErr, IfSome, IfNone, IsTrue, option_map, Some, None, ◌↔◌, vec_capacity};
ghost use Rattle.frames.specs.declared.CodeId.{CodeId};
ghost use Rattle.frames.specs.Stack.{same_code, act, times, is_among, top_serial_of, has_serial, serial_count};
ghost use Rattle.frames.specs.ImageView.{SameBag, next_code, IsNext, unsettled, serial_times, IsCounted, Differs, HasFrames, Counts, IsSettled, push_fault, pop_fault, end_fault};

use crate::nets::Nets;
use crate::{Change, CodeId, EndFault, Frame, PopFault, Publishing, PushFault};
use std::alloc::{AllocError, Global};
use std::marker::Model;

/// How many frames a stack can have.
pub const DEPTH: usize = 256;

/// A thread's stack, and how many frames of each code its publications have counted.
///
/// A publication is a [`begin`](Image::begin), a [`next_change`](Image::next_change) for each code
/// whose count differs, and an [`end`](Image::end). While one is open the stack doesn't change.
///
/// What differs is kept as frames come and go, so that calls and returns cost the same at any
/// depth. A publication costs a sort of the codes that moved, and a look at each code that the
/// one before it kept. Only [`count_of`](Image::count_of) goes over the frames.
///
/// Contracts see the frames, the bag of counted codes, the codes already changed in the open
/// publication, and whether one is open. Of the bag they say only how often a code is in it.
#[derive(Drop)]
pub struct Image {
    frames: Vec<Frame>,
    // How many more frames each code has than are counted. In an open publication those in front were given already, and
    // are no longer left.
    nets: Nets,
    given: usize,
    publishing: bool,
}

impl Model for Image {
    ghost use Rattle.std.specs.Prelude.{◌≤◌, ◌≡◌, vec_len, vec_capacity, true, false, None, length, take, drop};
    ghost use Rattle.frames.specs.declared.CodeId.{CodeId};
    ghost use Rattle.frames.specs.Stack.{act};
    ghost use Rattle.frames.specs.ImageView.{ImageView};
    ghost use Rattle.frames.specs.Nets.{counted_by, codes_in, net_in, IsRising, IsWithin};

    ghost Value = { ImageView };

    ghost view = { λ i. record {
      frames = i.frames.items;
      counted = counted_by i.frames.items (drop i.given i.nets.entries);
      changed = codes_in (take i.given i.nets.entries);
      publishing = i.publishing;
    } };

    ghost invariant = { λ i. (vec_len i.frames ≤ 256) × (256 ≤ vec_capacity i.frames)
        × (i.nets.flushed ≡ i.publishing)
        × (i.given ≤ length i.nets.entries)
        × (i.publishing ≡ false → i.given ≡ 0)
        × IsRising None i.nets.entries
        × ((code : CodeId)
        → IsWithin (net_in (drop i.given i.nets.entries) code) (act code i.frames.items))
        × (i.publishing ≡ false → length (counted_by i.frames.items i.nets.entries) ≤ 256)
        × (length i.nets.entries ≤ 512) };
}

impl Image {
    /// An image of an empty stack, of which nothing is counted. It reserves all the room that it
    /// will need: no other call takes memory.
    ///
    /// # Errors
    /// The allocator has no room.
    pub fn new(alloc: Global) -> Result<Image, AllocError>
        ensures { IfOk result (λ image.
            image ≡ record { frames = []; counted = []; changed = []; publishing = false }) }
    {
        Ok(Image {
            frames: Vec::with_capacity(alloc, DEPTH)?,
            nets: Nets::new(alloc)?,
            given: 0,
            publishing: false,
        })
    }

    /// The frames, the top last.
    pub fn frames(&self) -> &[Frame]
        ensures { result.now ≡ self.now.frames }
    {
        self.frames.as_slice()
    }

    /// Whether a publication is open.
    pub fn is_publishing(&self) -> bool
        ensures open { result ≡ self.now.publishing }
        ensures closed { result ≡ false → self.now.changed ≡ [] }
    {
        self.publishing // from `begin` to `end`
    }

    /// The number of frames, at most [`DEPTH`].
    #[inline(always)]
    pub fn depth(&self) -> usize
        ensures value { result ≡ length self.now.frames }
        ensures bound { result ≤ 256 }
    {
        self.frames.len() // the interpreted ones too
    }

    /// Puts the frame on top.
    ///
    /// # Errors
    /// In this order: the stack has [`DEPTH`] frames; a publication is open.
    #[inline(always)]
    pub fn push(&mut self, frame: Frame) -> Result<(), PushFault>
        ensures ok { OnOk result (HasFrames self.old self.new (self.old.frames ++ frame ∷ [])) }
        ensures accepted { OnOk result (push_fault self.old ≡ None) }
        ensures refused { IfErr result (λ fault. push_fault self.old ≡ Some fault) }
        ensures unchanged { OnErr result (self.new ≡ self.old) }
    {
        if self.frames.len() >= DEPTH {
            return Err(PushFault::DepthFull);
        }
        if self.publishing {
            return Err(PushFault::Publishing);
        }
        self.put(frame);
        Ok(())
    }

    /// Puts the frame on top, as [`push`](Image::push) does where it refuses nothing, and so without its tests.
    #[inline(always)]
    pub fn put(&mut self, frame: Frame)
        requires depth { length self.old.frames < 256 }
        requires closed { self.old.publishing ≡ false }
        ensures { HasFrames self.old self.new (self.old.frames ++ frame ∷ []) }
    {
        self.frames.push_reserved(frame);
        if let Some(code) = frame.code {
            self.nets.add(code, 1);
        }
    }

    /// Takes the top frame.
    ///
    /// # Errors
    /// In this order: there is no frame; a publication is open.
    #[inline(always)]
    pub fn pop(&mut self) -> Result<Frame, PopFault>
        ensures ok { IfOk result (λ frame. (self.old.frames ≡ self.new.frames ++ frame ∷ [])
            × HasFrames self.old self.new self.new.frames) }
        ensures accepted { OnOk result (pop_fault self.old ≡ None) }
        ensures refused { IfErr result (λ fault. pop_fault self.old ≡ Some fault) }
        ensures unchanged { OnErr result (self.new ≡ self.old) }
    {
        if self.frames.is_empty() {
            return Err(PopFault::EmptyStack);
        }
        if self.publishing {
            return Err(PopFault::Publishing);
        }
        Ok(self.take_top())
    }

    /// Takes the top frame, as [`pop`](Image::pop) does where it refuses nothing, and so without its tests.
    #[inline(always)]
    pub fn take_top(&mut self) -> Frame
        requires some { 0 < length self.old.frames }
        requires closed { self.old.publishing ≡ false }
        ensures popped { self.old.frames ≡ self.new.frames ++ result ∷ [] }
        ensures left { HasFrames self.old self.new self.new.frames }
    {
        let frame = self.frames.take_last();
        if let Some(code) = frame.code {
            self.nets.add(code, -1);
        }
        frame
    }

    /// Opens a publication.
    ///
    /// # Errors
    /// One is open.
    pub fn begin(&mut self) -> Result<(), Publishing>
        ensures ok { OnOk result (self.new ≡ record self.old { publishing = true }) }
        ensures opened { OnOk result (self.new.changed ≡ []) }
        ensures accepted { OnOk result (self.old.publishing ≡ false) }
        ensures refused { OnErr result (self.old.publishing ≡ true) }
        ensures unchanged { OnErr result (self.new ≡ self.old) }
    {
        self.may_begin()?;
        self.nets.flush();
        self.publishing = true;
        Ok(())
    }

    /// Opens a publication, as [`begin`](Image::begin) does, of a stack on which the same codes come and go: where each code that
    /// was noted differs, it stays noted. Its next moves cost less then, and [`is_settled`](Image::is_settled) looks at each.
    ///
    /// # Errors
    /// One is open.
    pub fn begin_keeping(&mut self) -> Result<(), Publishing>
        ensures ok { OnOk result (self.new ≡ record self.old { publishing = true }) }
        ensures opened { OnOk result (self.new.changed ≡ []) }
        ensures accepted { OnOk result (self.old.publishing ≡ false) }
        ensures refused { OnErr result (self.old.publishing ≡ true) }
        ensures unchanged { OnErr result (self.new ≡ self.old) }
    {
        self.may_begin()?;
        self.nets.flush_keeping();
        self.publishing = true;
        Ok(())
    }

    fn may_begin(&self) -> Result<(), Publishing>
        ensures accepted { OnOk result (self.now.publishing ≡ false) }
        ensures refused { OnErr result (self.now.publishing ≡ true) }
    {
        if self.publishing {
            return Err(Publishing);
        }
        Ok(())
    }

    /// Counts the frames of the least code, by serial and then by slot, whose number of frames
    /// isn't its count and that this publication hasn't given yet, and gives the code with the
    /// difference. `None` where there is no such code, or no publication is open.
    pub fn next_change(&mut self) -> Option<Change>
        ensures closed { self.old.publishing ≡ false → result ≡ None }
        ensures code { self.old.publishing ≡ true
            → option_map (λ change. change.code) result ≡ next_code self.old }
        ensures fresh { IfSome result (λ change. is_among change.code self.old.changed ≡ false) }
        ensures counts { IfSome result (λ change. Counts self.old self.new change) }

        ensures none { IfNone result (self.new ≡ self.old) }
        ensures next { self.old.publishing ≡ true
            → IsNext self.old (option_map (λ change. change.code) result) }
        ensures by { IfSome result (λ change. change.by ≢ pos 0) }
        ensures fewer { IfSome result (λ change. unsettled self.old ≡ unsettled self.new + 1) }
    {
        if !self.publishing {
            return None;
        }
        let Some(change) = self.nets.get(self.given) else {
            return None;
        };
        self.given += 1;
        Some(change)
    }

    /// Ends the publication. Every frame is counted then.
    ///
    /// # Errors
    /// In this order: no publication is open; a code is left whose counts differ.
    pub fn end(&mut self) -> Result<(), EndFault>
        ensures ok { OnOk result ((self.new.frames ≡ self.old.frames)
            × (self.new.publishing ≡ false) × IsCounted self.new) }
        ensures counted { OnOk result (IsCounted self.old) }
        ensures closed { OnOk result (self.new.changed ≡ []) }
        ensures accepted { OnOk result (end_fault self.old ≡ None) }

        ensures refused { IfErr result (λ fault. end_fault self.old ≡ Some fault) }
        ensures unchanged { OnErr result (self.new ≡ self.old) }
    {
        if !self.publishing {
            return Err(EndFault::NotBegun);
        }
        if self.given < self.nets.len() {
            return Err(EndFault::ChangesLeft);
        }
        self.nets.clear();
        self.given = 0;
        self.publishing = false;
        Ok(())
    }

    /// A whole publication in one step, where no more than one code moved since the last: counts the
    /// frames of that code, and gives it with the difference, as [`begin`](Image::begin),
    /// [`next_change`](Image::next_change) and [`end`](Image::end) would.
    ///
    /// `None` promises only that nothing changed: it is answered where no count differs or more do,
    /// and maybe where one does, but other codes moved and moved back, were kept by the last
    /// publication, or share its cell. A code that it gives stays noted.
    #[inline(always)]
    pub fn settle_only(&mut self) -> Option<Change>
        requires closed { self.old.publishing ≡ false }

        ensures frames { self.new.frames ≡ self.old.frames }
        ensures settled { IfSome result (λ change. IsSettled self.new) }
        ensures closed { IfSome result (λ change. self.new.changed ≡ []) }
        ensures counts { IfSome result
            (λ change. Counts self.old (record self.new { changed = change.code ∷ [] }) change) }
        ensures differs { IfSome result (λ change. Differs self.old change.code) }
        ensures by { IfSome result (λ change. change.by ≢ pos 0) }
        ensures others { IfSome result (λ change. (code : CodeId)
            → same_code code change.code ≡ false
            → act code self.old.frames ≡ times code self.old.counted) }

        ensures none { IfNone result (self.new ≡ self.old) }
    {
        self.nets.take_only()
    }

    /// Whether no publication is open and every code has as many frames as are counted.
    #[inline(always)]
    pub fn is_settled(&self) -> bool
        ensures { IsTrue result ↔ IsSettled self.now }
    {
        !self.publishing && self.nets.is_empty()
    }

    /// Whether no code is noted: then each is counted as often as it has frames, and no publication is open. Where codes moved and
    /// moved back, and where the last publication kept codes, the answer may be `false` though the image is settled.
    #[inline(always)]
    pub fn is_unmoved(&self) -> bool
        ensures { result ≡ true → IsSettled self.now }
    {
        !self.publishing && self.nets.is_unmoved()
    }

    /// How many codes have other numbers of frames than are counted.
    pub fn unsettled(&self) -> usize
        ensures { result ≡ unsettled self.now }
    {
        self.nets.len() - self.given
    }

    /// How many more frames than are counted have a code of the serial.
    pub fn net(&self, serial: u64) -> i32
        ensures { pos (serial_times serial self.now.counted) +ℤ result
            ≡ pos (serial_count serial self.now.frames) }
    {
        self.nets.sum(self.given, serial)
    }

    /// The number of frames whose code has the serial.
    pub fn count_of(&self, serial: u64) -> usize
        ensures { result ≡ serial_count serial self.now.frames }
    {
        self.frames
            .iter()
            .filter(|frame| has_serial(frame, serial))
            .count()
    }

    /// The serial of the top frame's code, 0 where there is no frame or it is interpreted.
    pub fn top_serial(&self) -> u64
        ensures { result ≡ top_serial_of self.now.frames }
    {
        match self.frames.last() {
            Some(frame) => match frame.code {
                Some(code) => code.serial,
                None => 0,
            },
            None => 0,
        }
    }
}

fn has_serial(frame: &Frame, serial: u64) -> bool
    ensures { result ≡ has_serial serial frame.now }
{
    match frame.code {
        Some(code) => code.serial == serial,
        None => false,
    }
}
