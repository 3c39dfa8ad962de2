//! The session of its own, over a library in memory, of which lines are written and no messages.
ghost use Rattle.std.specs.Prelude.{◌<◌, ◌≤◌, ℕ};
ghost use Rattle.io_edge.specs.Told.{HasRisen};
ghost use Rattle.bulk_session.specs.Bulk.{bulk_lines};
ghost use Rattle.hlasm_server.specs.Bulk.{Writes, WritesAll};
ghost use Rattle.hlasm_server.specs.Headline.{HasStatusCause};

use crate::Status;
use crate::sending::put_all;
use bulk_session::bulk_lines;
use hl_base::{Ledger, OutOfMemory, Steps};
use io_edge::{Failed, Sink};
use std::alloc::Global;

/// Puts the lines into the sink.
fn put_lines<K: Sink>(sink: &mut K, lines: &[u8]) -> Status
    ensures writes { Writes lines.now (K.held sink.old) (K.held sink.new) result }
    ensures all { (HasRisen (K.faults sink.old) (K.faults sink.new) → ⊥) → WritesAll lines.now (K.held sink.old) (K.held sink.new) result }
    ensures cause { (before now : ℕ) → HasStatusCause result before now (K.faults sink.old) (K.faults sink.new) }
    ensures later { K.faults sink.old ≤ K.faults sink.new }
{
    match put_all(sink, lines) {
        Ok(()) => Status::Done,
        Err(Failed) => Status::WriteFault,
    }
}

/// The session with a program of so many calls: its lines are written when all of them are known.
pub fn bulk<K: Sink, L: Ledger>(
    alloc: Global,
    count: u32,
    sink: &mut K,
    steps: &mut Steps<L>,
) -> Status
    requires some { 0 < count }
    requires few { count ≤ 10000 }
    ensures writes { Writes (bulk_lines count) (K.held sink.old) (K.held sink.new) result }
    ensures all { (HasRisen (K.faults sink.old) (K.faults sink.new) → ⊥) → WritesAll (bulk_lines count) (K.held sink.old) (K.held sink.new) result }
    ensures cause { (before now : ℕ) → HasStatusCause result before now (K.faults sink.old) (K.faults sink.new) }
    ensures later { K.faults sink.old ≤ K.faults sink.new }
{
    match bulk_lines(alloc, count, steps) {
        Ok(lines) => put_lines(sink, &lines),
        Err(OutOfMemory) => Status::OutOfMemory,
    }
}
