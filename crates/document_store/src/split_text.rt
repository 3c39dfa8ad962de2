//! A text in two parts, before a place and from it on, in one buffer with room between them: where the place moves, only
//! what lies on the way is moved, and what comes in at the place goes into the room.
ghost use Rattle.std.specs.Prelude.{◌≡◌, ◌+◌, ◌-◌, ◌≤◌, ◌++◌, [], length, take, drop, IfOk, OnOk};
ghost use Rattle.std.specs.Str.{IsCharBoundary, IsUtf8};
ghost use Rattle.std.specs.String.{string_bytes};

use crate::moving::move_bytes;
use std::alloc::{AllocError, Global};
use std::marker::Model;
use std::str::from_utf8_unchecked;
use text_pool::LONGEST_TEXT;

/// The two parts. Contracts see their bytes, and how much room there is.
#[derive(Drop)]
pub(crate) struct SplitText {
    bytes: Vec<u8>,
    // Where the first part ends, and where the second begins.
    end: usize,
    start: usize,
}

impl Model for SplitText {
    ghost use Rattle.document_store.specs.Parts.{Parts, parts_code};

    ghost Value = { Parts };

    ghost coded = { parts_code };

    ghost use Rattle.document_store.specs.Split.{parts_of, AreParts};

    ghost view = { λ s. parts_of s.bytes.items s.end s.start };

    ghost invariant = { λ s. AreParts s.bytes.items s.end s.start };
}

impl SplitText {
    /// These parts, with so much room between them.
    pub(crate) fn new(
        alloc: Global,
        front: &str,
        room: usize,
        back: &str,
    ) -> Result<SplitText, AllocError>
        requires few { room ≤ LONGEST_TEXT }
        requires short { length front.now + length back.now ≤ LONGEST_TEXT }
        ensures { IfOk result (λ s. s ≡ record { front = front.now; room = room; back = back.now }) }
    {
        let end = front.len();
        let start = end + room;
        let mut bytes = Vec::with_capacity(alloc, start + back.len())?;
        bytes.extend_from_slice(front.as_bytes())?;
        bytes.resize(start, 0)?;
        bytes.extend_from_slice(back.as_bytes())?;
        Ok(SplitText { bytes, end, start })
    }

    /// The first part.
    pub(crate) fn front(&self) -> &str
        ensures { result.now ≡ self.now.front }
    {
        unsafe { from_utf8_unchecked(&self.bytes[..self.end]) }
    }

    /// The second part.
    pub(crate) fn back(&self) -> &str
        ensures { result.now ≡ self.now.back }
    {
        unsafe { from_utf8_unchecked(&self.bytes[self.start..]) }
    }

    /// Moves so many bytes of the second part behind the first.
    pub(crate) fn advance(&mut self, count: usize)
        requires { IsCharBoundary self.old.back count }
        ensures { self.new ≡ record { front = self.old.front ++ take count self.old.back; room = self.old.room; back = drop count self.old.back } }
    {
        let bytes = self.bytes.as_mut_slice();
        move_bytes(bytes, self.start, self.start + count, self.end);
        self.start += count;
        self.end += count;
    }

    /// Moves what stands in the first part from a place on before the second.
    pub(crate) fn go_back(&mut self, at: usize)
        requires { IsCharBoundary self.old.front at }
        ensures texts { IsUtf8 self.old.back }
        ensures parts { self.new ≡ record { front = take at self.old.front; room = self.old.room; back = drop at self.old.front ++ self.old.back } }
    {
        let start = self.start - (self.end - at);
        let bytes = self.bytes.as_mut_slice();
        move_bytes(bytes, at, self.end, start);
        self.start = start;
        self.end = at;
    }

    /// Moves all of the first part before the second.
    pub(crate) fn go_to_start(&mut self)
        ensures { self.new ≡ record { front = []; room = self.old.room; back = self.old.front ++ self.old.back } }
    {
        let _ = &self.bytes;
        self.go_back(0);
    }

    /// Makes room for so many bytes. After an `Err` the text is not to be used.
    fn make_room(&mut self, alloc: Global, room: usize) -> Result<(), AllocError>
        requires few { room ≤ LONGEST_TEXT }
        requires short { length self.old.front + length self.old.back ≤ LONGEST_TEXT }
        ensures room { OnOk result (room ≤ self.new.room) }
        ensures parts { OnOk result (self.new ≡ record self.old { room = self.new.room }) }
    {
        if self.start - self.end >= room {
            return Ok(());
        }
        let moved = SplitText::new(alloc, self.front(), room, self.back())?;
        *self = moved;
        Ok(())
    }

    /// Puts a text, for which there is room, in place of a part of the second part.
    fn put(&mut self, from: usize, to: usize, text: &str)
        requires order { from ≤ to }
        requires first { IsCharBoundary self.old.back from }
        requires last { IsCharBoundary self.old.back to }
        requires room { length text.now ≤ self.old.room }
        ensures { self.new ≡ record { front = self.old.front; room = self.old.room + (to - from) - length text.now; back = take from self.old.back ++ text.now ++ drop to self.old.back } }
    {
        let start = self.start + (to - from) - text.len();
        let bytes = self.bytes.as_mut_slice();
        move_bytes(bytes, self.start, self.start + from, start);
        bytes[start + from..self.start + to].copy_from_slice(text.as_bytes());
        self.start = start;
    }

    /// Puts a text in place of a part of the second part. After an `Err` the text is not to be used.
    pub(crate) fn replace(
        &mut self,
        alloc: Global,
        from: usize,
        to: usize,
        text: &str,
    ) -> Result<(), AllocError>
        requires order { from ≤ to }
        requires first { IsCharBoundary self.old.back from }
        requires last { IsCharBoundary self.old.back to }
        requires few { length text.now ≤ LONGEST_TEXT }
        requires short { length self.old.front + length self.old.back ≤ LONGEST_TEXT }
        ensures front { OnOk result (self.new.front ≡ self.old.front) }
        ensures back { OnOk result (self.new.back ≡ take from self.old.back ++ text.now ++ drop to self.old.back) }
    {
        self.make_room(alloc, text.len())?;
        self.put(from, to, text);
        Ok(())
    }

    /// Both parts as one text.
    pub(crate) fn joined(self) -> String
        ensures { string_bytes result ≡ self.front ++ self.back }
    {
        let mut bytes = self.bytes;
        let length = bytes.as_slice().len();
        move_bytes(bytes.as_mut_slice(), self.start, length, self.end);
        bytes.truncate(self.end + (length - self.start));
        unsafe { String::from_utf8_unchecked(bytes) }
    }
}
