//! A sink over std's `Write`.
ghost use Rattle.std.specs.Prelude.{◌≡◌, ℕ, ◌<◌, ◌≤◌, None, length, IfOk};
ghost use Rattle.io_edge.specs.Told.{HasCause};

use crate::interrupted::{TRIES, is_interrupted};
use crate::{Failed, Sink};
use std::io::Write;
use std::marker::Model;

/// A sink over a writer. What a put took is flushed when it returns. It tells nothing of its bytes.
#[derive(Drop)]
pub struct StdSink<W: Write> {
    writer: W,
    refusals: u64,
}

impl<W: Write> Model for StdSink<W> {
    ghost use Rattle.std.specs.Prelude.{ℕ};

    ghost Value = { ℕ };

    ghost view = { λ s. s.refusals };
}

impl<W: Write> StdSink<W> {
    /// A sink over a writer.
    pub fn new(writer: W) -> StdSink<W>
        ensures { result ≡ 0 }
    {
        StdSink {
            writer,
            refusals: 0,
        }
    }

    /// How many puts failed, or the greatest u64.
    pub fn refusals(&self) -> u64
        ensures { result ≡ self.now }
    {
        self.refusals
    }
}

/// Writes once, again where a signal interrupted the write.
fn write_once<W: Write>(writer: &mut W, piece: &[u8]) -> Result<usize, Failed>
    ensures bound { IfOk result (λ n. n ≤ length piece.now) }
    ensures some { IfOk result (λ n. 0 < n) }
{
    for _ in 0..TRIES {
        match writer.write(piece) {
            Ok(0) => return Err(Failed),
            Ok(count) => return Ok(count),
            Err(error) => {
                if !is_interrupted(&error) {
                    return Err(Failed);
                }
            }
        }
    }
    Err(Failed)
}

/// Flushes what was written, again where a signal interrupted that.
fn flush_once<W: Write>(writer: &mut W) -> Result<(), Failed> {
    for _ in 0..TRIES {
        match writer.flush() {
            Ok(()) => return Ok(()),
            Err(error) => {
                if !is_interrupted(&error) {
                    return Err(Failed);
                }
            }
        }
    }
    Err(Failed)
}

/// Writes at least one byte of a piece and flushes.
fn deliver<W: Write>(writer: &mut W, piece: &[u8]) -> Result<usize, Failed>
    ensures bound { IfOk result (λ n. n ≤ length piece.now) }
    ensures some { IfOk result (λ n. 0 < n) }
{
    let count = write_once(writer, piece)?;
    flush_once(writer)?;
    Ok(count)
}

impl<W: Write> Sink for StdSink<W> {
    ghost use Rattle.io_edge.specs.StdForms.{counted_fault};

    ghost held = { λ _. None };

    ghost faults = { λ refusals. refusals };

    fn put(&mut self, piece: &[u8]) -> Result<usize, Failed>
        ensures bound { IfOk result (λ n. n ≤ length piece.now) }
        ensures some { IfOk result (λ n. 0 < length piece.now → 0 < n) }
        ensures cause { HasCause self.old self.new result }
        ensures counts { self.new ≡ counted_fault result self.old }
    {
        if piece.is_empty() {
            return Ok(0);
        }
        let result = deliver(&mut self.writer, piece);
        if result.is_err() {
            self.refusals = self.refusals.saturating_add(1);
        }
        result
    }
}
