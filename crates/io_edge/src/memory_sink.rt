//! A sink that holds its bytes.
ghost use Rattle.std.specs.Prelude.{◌≡◌, ◌+◌, ◌<◌, ◌≤◌, ◌↔◌, [], ◌++◌, Some, length, IfOk, IsErr, vec_len, vec_capacity};
ghost use Rattle.io_edge.specs.Told.{Gains, counted, HasCause};

use crate::number::is_listed;
use crate::{Failed, Sink};
use hl_base::OutOfMemory;
use std::alloc::Global;
use std::marker::Model;

/// A sink that holds its bytes in room that was taken when it was made. Contracts see what it holds.
#[derive(Drop)]
pub struct MemorySink {
    bytes: Vec<u8>,
    room: usize,
    most: usize,
    failing: Vec<u64>,
    puts: u64,
    refusals: u64,
}

impl Model for MemorySink {
    ghost use Rattle.std.specs.Prelude.{◌+◌, ◌<◌, ◌≤◌, vec_len, vec_capacity};
    ghost use Rattle.io_edge.specs.MemorySink.{SinkState};

    ghost Value = { SinkState };

    ghost view = { λ s. record {
      bytes = s.bytes.items;
      room = s.room;
      most = s.most;
      failing = s.failing.items;
      puts = s.puts;
      refusals = s.refusals;
    } };

    ghost invariant = { λ s. record {
      room_taken : vec_len s.bytes + s.room ≤ vec_capacity s.bytes;
      most_positive : 0 < s.most;
    } };
}

/// Adds bytes for which there is room, without taking memory.
fn append(bytes: &mut Vec<u8>, piece: &[u8])
    requires { vec_len bytes.old + length piece.now ≤ vec_capacity bytes.old }
    ensures items { bytes.new.items ≡ bytes.old.items ++ piece.now }
    ensures capacity { vec_capacity bytes.old ≤ vec_capacity bytes.new }
{
    let _ = bytes.extend_from_slice(piece);
}

impl MemorySink {
    ghost use Rattle.io_edge.specs.MemorySink.{SinkState};

    /// An empty sink with room for so many bytes, of which a put takes at most `most`. The puts of the numbers that
    /// are listed fail; every put counts, from 1.
    pub fn new(
        alloc: Global,
        room: usize,
        most: usize,
        failing: Vec<u64>,
    ) -> Result<MemorySink, OutOfMemory>
        requires { 0 < most }
        ensures { IfOk result (λ sink. sink ≡ record {
          bytes = [];
          room = room;
          most = most;
          failing = failing.items;
          puts = 0;
          refusals = 0;
        }) }
    {
        let bytes = Vec::with_capacity(alloc, room)?;
        Ok(MemorySink {
            bytes,
            room,
            most,
            failing,
            puts: 0,
            refusals: 0,
        })
    }

    /// The bytes put so far.
    pub fn contents(&self) -> &[u8]
        ensures { result.now ≡ self.now.bytes }
    {
        self.bytes.as_slice()
    }

    /// How many puts failed, or the greatest u64.
    pub fn refusals(&self) -> u64
        ensures { result ≡ self.now.refusals }
    {
        self.refusals
    }
}

impl Sink for MemorySink {
    ghost use Rattle.io_edge.specs.MemorySink.{SinkState, IsPutRefused, put_len, after_put};

    ghost held = { λ s. Some s.bytes };

    ghost faults = { λ s. s.refusals };

    fn put(&mut self, piece: &[u8]) -> Result<usize, Failed>
        ensures bound { IfOk result (λ n. n ≤ length piece.now) }
        ensures some { IfOk result (λ n. 0 < length piece.now → 0 < n) }
        ensures held { Gains (Some self.old.bytes) (counted result piece.now) (Some self.new.bytes) }
        ensures cause { HasCause self.old.refusals self.new.refusals result }

        ensures refused { IsErr result ↔ IsPutRefused self.old piece.now }
        ensures count { IfOk result (λ n. n ≡ put_len self.old piece.now) }
        ensures after { self.new ≡ after_put self.old piece.now result }
    {
        self.puts = self.puts.saturating_add(1);
        if is_listed(&self.failing, self.puts) || (!piece.is_empty() && self.room == 0) {
            self.refusals = self.refusals.saturating_add(1);
            return Err(Failed);
        }
        let count = self.most.min(self.room).min(piece.len());
        append(&mut self.bytes, &piece[..count]);
        self.room -= count;
        Ok(count)
    }
}
