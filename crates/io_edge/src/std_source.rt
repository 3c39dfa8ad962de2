//! A source over std's `Read`.
ghost use Rattle.std.specs.Prelude.{◌≡◌, ℕ, ◌+◌, ◌<◌, ◌≤◌, ◌↔◌, [], ◌++◌, None, Ok, length, min, take, IfOk, IsTrue};
ghost use Rattle.io_edge.specs.Told.{counted, HasCause};

use crate::interrupted::{TRIES, is_interrupted};
use crate::piece::give;
use crate::{Failed, Source};
use hl_base::OutOfMemory;
use std::alloc::Global;
use std::io::Read;
use std::marker::Model;

/// How many bytes are read ahead at most.
const READ_AHEAD: usize = 8192;

/// A source over a reader, with a buffer of its own of 8 KiB, so that taking single bytes is cheap. It tells nothing
/// of its bytes; contracts see those that were read ahead.
#[derive(Drop)]
pub struct StdSource<R: Read> {
    reader: R,
    buffer: Vec<u8>,
    next: usize,
    end: usize,
    refusals: u64,
}

impl<R: Read> Model for StdSource<R> {
    ghost use Rattle.std.specs.Prelude.{◌≤◌, take, drop, vec_len};
    ghost use Rattle.io_edge.specs.StdForms.{Ahead};

    ghost Value = { Ahead };

    ghost view = { λ s. record { buffered = drop s.next (take s.end s.buffer.items); refusals = s.refusals } };

    ghost invariant = { λ s. record { in_order : s.next ≤ s.end; within : s.end ≤ vec_len s.buffer } };
}

impl<R: Read + Drop> StdSource<R> {
    ghost use Rattle.io_edge.specs.StdForms.{Ahead};

    /// A source over a reader, of which nothing is read yet.
    pub fn new(alloc: Global, reader: R) -> Result<StdSource<R>, OutOfMemory>
        ensures { IfOk result (λ source. source ≡ record { buffered = []; refusals = 0 }) }
    {
        let buffer = vec![in alloc; 0; READ_AHEAD]?;
        Ok(StdSource {
            reader,
            buffer,
            next: 0,
            end: 0,
            refusals: 0,
        })
    }
}

/// Reads once, again where a signal interrupted the read.
fn read_once<R: Read>(reader: &mut R, buffer: &mut [u8]) -> Result<usize, Failed>
    ensures { IfOk result (λ n. n ≤ length buffer.old) }
{
    for _ in 0..TRIES {
        match reader.read(buffer) {
            Ok(count) => return Ok(count),
            Err(error) => {
                if !is_interrupted(&error) {
                    return Err(Failed);
                }
            }
        }
    }
    Err(Failed)
}

impl<R: Read> StdSource<R> {
    ghost use Rattle.io_edge.specs.StdForms.{Ahead, counted_fault};

    /// How many takes failed, or the greatest u64.
    pub fn refusals(&self) -> u64
        ensures { result ≡ self.now.refusals }
    {
        self.refusals
    }

    /// Reads once into the buffer, in place of what was read ahead.
    fn fill(&mut self) -> Result<(), Failed>
        ensures counts { self.new.refusals ≡ counted_fault result self.old.refusals }
        ensures cause { HasCause self.old.refusals self.new.refusals result }
    {
        match read_once(&mut self.reader, &mut self.buffer) {
            Ok(count) => {
                self.next = 0;
                self.end = count;
                Ok(())
            }
            Err(failed) => {
                self.refusals = self.refusals.saturating_add(1);
                Err(failed)
            }
        }
    }

    /// Gives of what was read ahead.
    fn give_ahead(&mut self, buf: &mut [u8]) -> usize
        ensures count { result ≡ min (length buf.old) (length self.old.buffered) }
        ensures given { self.old.buffered ≡ take result buf.new ++ self.new.buffered }
        ensures refusals { self.new.refusals ≡ self.old.refusals }
    {
        let (filled, _) = self.buffer.split_at(self.end);
        let (_, ahead) = filled.split_at(self.next);
        let count = give(ahead, buf.len(), buf);
        self.next += count;
        count
    }
}

impl<R: Read> Source for StdSource<R> {
    ghost use Rattle.io_edge.specs.StdForms.{Ahead, counted_fault};

    ghost left = { λ _. None };

    ghost waits = { λ _. None };

    ghost faults = { λ s. s.refusals };

    fn take(&mut self, buf: &mut [u8]) -> Result<usize, Failed>
        ensures bound { IfOk result (λ n. n ≤ length buf.old) }
        ensures cause { HasCause self.old.refusals self.new.refusals result }
        ensures counts { self.new.refusals ≡ counted_fault result self.old.refusals }

        // What was read ahead is given without another read.
        ensures ahead { 0 < length self.old.buffered →
            result ≡ Ok (min (length buf.old) (length self.old.buffered)) }
        ensures given { 0 < length self.old.buffered →
            self.old.buffered ≡ counted result buf.new ++ self.new.buffered }
    {
        if buf.is_empty() {
            return Ok(0);
        }
        if !self.waiting() {
            self.fill()?;
        }
        Ok(self.give_ahead(buf))
    }

    fn waiting(&mut self) -> bool
        ensures buffered { IsTrue result ↔ (0 < length self.old.buffered) }
        ensures kept { self.new ≡ self.old }
    {
        self.next < self.end
    }
}
