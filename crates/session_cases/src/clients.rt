//! A client that sends a frame after the first only when all that is written for the frames before it has come.
ghost use Rattle.std.specs.Prelude.{None};

use crate::frames::framed;
use crate::messages::cut;
use crate::numbers::number_or;
use crate::running::{run_over, words};
use hl_base::OutOfMemory;
use hlasm_server::Status;
use io_edge::{Failed, MemoryLibrary, Sink, Source};
use std::alloc::{AllocError, Global};
use std::cell::Cell;
use std::rc::Rc;

/// Where a frame of the input begins, and how many bytes are written for the frames before it.
#[derive(Clone, Copy, Drop)]
struct Turn {
    start: usize,
    written: u64,
}

/// A client that sends a frame only when it has seen all that is written for the frames before it, and else has nothing more to
/// send.
#[derive(Drop)]
struct PatientClient {
    bytes: Vec<u8>,
    sent: usize,
    turns: Vec<Turn>,
    seen: Rc<Cell<u64>>,
}

impl PatientClient {
    /// How many bytes of its input it has sent when it has nothing more to send.
    fn sendable(&self) -> usize {
        for turn in &self.turns {
            if self.seen.get() < turn.written {
                return turn.start;
            }
        }
        self.bytes.len()
    }
}

impl Source for PatientClient {
    ghost left = { λ _. None };

    ghost waits = { λ _. None };

    ghost faults = { λ _. 0 };

    fn take(&mut self, buf: &mut [u8]) -> Result<usize, Failed> {
        let count = self.sendable().saturating_sub(self.sent).min(buf.len());
        let ahead = self.bytes.iter().skip(self.sent);
        for (place, byte) in buf.iter_mut().zip(ahead).take(count) {
            *place = *byte;
        }
        self.sent = self.sent.saturating_add(count);
        Ok(count)
    }

    fn waiting(&mut self) -> bool {
        false
    }
}

/// A sink that counts its bytes where a client may see them.
#[derive(Drop)]
struct CountingSink {
    held: Rc<Cell<u64>>,
}

impl Sink for CountingSink {
    ghost held = { λ _. None };

    ghost faults = { λ _. 0 };

    fn put(&mut self, piece: &[u8]) -> Result<usize, Failed> {
        let count = piece.len();
        self.held.set(self.held.get().saturating_add(count as u64));
        Ok(count)
    }
}

/// `START WRITTEN; ..`: where the frames begin, and what is written before each.
fn turns(alloc: Global, text: &str) -> Result<Vec<Turn>, AllocError> {
    let mut turns = Vec::new(alloc);
    for part in text.split("; ") {
        let (start, written) = cut(part);
        turns.push(Turn {
            start: number_or(start, 0),
            written: number_or(written, 0) as u64,
        })?;
    }
    Ok(turns)
}

/// The count that a client sees: that of the sink, or one that stays 0.
fn seen(alloc: Global, held: &Rc<Cell<u64>>, is_blind: bool) -> Result<Rc<Cell<u64>>, AllocError> {
    if is_blind {
        Ok(Rc::new(alloc, Cell::new(0))?)
    } else {
        Ok(held.clone()?)
    }
}

/// A client that has sent nothing.
fn client(
    alloc: Global,
    names: &str,
    text: &str,
    seen: Rc<Cell<u64>>,
) -> Result<PatientClient, AllocError> {
    let bytes = framed(alloc, names)?;
    let turns = turns(alloc, text)?;
    Ok(PatientClient {
        bytes,
        sent: 0,
        turns,
        seen,
    })
}

/// How a run of `serve` ends over a client and a sink.
fn served(
    alloc: Global,
    client: &mut PatientClient,
    sink: &mut CountingSink,
) -> Result<Status, AllocError> {
    let words = words(alloc, "serve")?;
    let mut library = MemoryLibrary::new(alloc, Vec::new(alloc), Vec::new(alloc), Vec::new(alloc));
    Ok(run_over(alloc, &words, client, sink, &mut library))
}

/// What a run over a client comes to that sends the bodies of these names: how it ends, how many bytes were sent, and how many
/// were written. A client that is `blind` sees nothing of what is written.
pub fn told(alloc: Global, names: &str, text: &str, sight: &str) -> Result<String, OutOfMemory> {
    let held = Rc::new(alloc, Cell::new(0))?;
    let seen = seen(alloc, &held, sight == "blind")?;
    let mut sink = CountingSink { held };
    let mut client = client(alloc, names, text, seen)?;
    let status = served(alloc, &mut client, &mut sink)?;
    let (sent, written) = (client.sent, sink.held.get());
    Ok(format!(in alloc; "{status}; {sent} sent; {written} written")?)
}
