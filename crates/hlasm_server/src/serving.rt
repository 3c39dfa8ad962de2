//! The top call: from the bytes that come in to the bytes that go out.
ghost use Rattle.std.specs.Prelude.{◌≡◌, ◌≢◌, ◌≤◌, ◌⊎◌, ℕ, [], Some, None, IfOk, false, map, string_bytes};
ghost use Rattle.hlasm_server.specs.Status.{status_of};
ghost use Rattle.io_edge.specs.Told.{HasRisen};
ghost use Rattle.bulk_session.specs.Bulk.{bulk_lines};
ghost use Rattle.command_words.specs.Commands.{command_of};
ghost use Rattle.command_words.specs.declared.command.Command.TheVariants.{Serve as ServeCommand, Bulk as BulkCommand};
ghost use Rattle.hlasm_server.specs.Bulk.{Writes, WritesAll};
ghost use Rattle.hlasm_server.specs.Headline.{IsPlainRun, HasStatusCause, Completes};
ghost use Rattle.hlasm_server.specs.Sending.{Hears, HasStopCause, IsReady};
ghost use Rattle.hlasm_server.specs.Words.{asks_for_session};
ghost use Rattle.bulk_session.specs.SessionView.{beginning};

use crate::Status;
use crate::bulk::bulk;
use crate::feeding::{LARGEST_PIECE, Next, next_body};
use crate::sending::{Stop, hear_and_send};
use bulk_session::session_core::{Connection, Session};
use command_words::{Command, WordsFault, read_words};
use hl_base::{Ledger, OutOfMemory, Steps};
use io_edge::{Library, Sink, Source};
use rpc_framing::FrameReader;
use std::alloc::Global;

/// The most bytes that are taken of an input.
const MOST_INPUT: u64 = 1 << 40;

/// The status of a run whose output stopped.
fn stopped(stop: Stop) -> Status
    ensures { result ≡ status_of stop }
{
    match stop {
        Stop::OutOfMemory => Status::OutOfMemory,
        Stop::WriteFault => Status::WriteFault,
    }
}

/// Has the session hear a body, and lets the body go.
fn hear_body<S: Source, K: Sink, B: Library, L: Ledger>(
    alloc: Global,
    session: &mut Session,
    since: &mut u32,
    body: Vec<u8>,
    source: &mut S,
    sink: &mut K,
    library: &mut B,
    steps: &mut Steps<L>,
) -> Result<Connection, Stop>
    requires ready { IsReady session.old }
    ensures ready { IfOk result (λ connection. connection ≡ Connection.Running → IsReady session.new) }
    ensures hears { Hears result session.old.state since.old body.items session.new.state since.new
        (S.waits source.old) (S.waits source.new) (B.calls library.old) (B.calls library.new)
        (K.held sink.old) (K.held sink.new) }
    ensures left { S.left source.new ≡ S.left source.old }
    ensures faults { S.faults source.new ≡ S.faults source.old }
    ensures later { K.faults sink.old ≤ K.faults sink.new }
    ensures cause { HasStopCause result (K.faults sink.old) (K.faults sink.new) }
    ensures later_library { B.faults library.old ≤ B.faults library.new }
{
    hear_and_send(alloc, session, since, &body, source, sink, library, steps)
}

/// Serves a session that has heard nothing yet, until it ends.
fn serve_session<S: Source, K: Sink, B: Library, L: Ledger>(
    alloc: Global,
    session: &mut Session,
    reader: &mut FrameReader,
    source: &mut S,
    sink: &mut K,
    library: &mut B,
    steps: &mut Steps<L>,
) -> Status
    requires session { session.old ≡ beginning session.old.state.budget }
    requires reader { reader.old ≡ record { ready = []; rest = []; fed = 0; fault = None } }
    ensures plain { IsPlainRun session.old.state.budget (S.waits source.old) (S.waits source.new) (B.calls library.old)
        (B.calls library.new) (S.left source.old) (S.left source.new) (K.held sink.old) (K.held sink.new) result }
    ensures cause { HasStatusCause result (S.faults source.old) (S.faults source.new) (K.faults sink.old) (K.faults sink.new) }
    ensures words { result ≢ Status.BadWords }
    ensures later_source { S.faults source.old ≤ S.faults source.new }
    ensures later_sink { K.faults sink.old ≤ K.faults sink.new }
    ensures later_library { B.faults library.old ≤ B.faults library.new }
{
    let mut buffer = [0; LARGEST_PIECE];
    let mut since = 0;
    loop {
        let body = match next_body(alloc, source, reader, &mut buffer, MOST_INPUT) {
            Next::Body(body) => body,
            Next::End => return Status::InputEnded,
            Next::Broken(at) => return Status::BadFrame { at },
            Next::TooLong => return Status::InputTooLong,
            Next::ReadFault => return Status::ReadFault,
            Next::OutOfMemory => return Status::OutOfMemory,
        };
        match hear_body(
            alloc, session, &mut since, body, source, sink, library, steps,
        ) {
            Ok(Connection::Running) => {}
            Ok(Connection::Exit(true)) => return Status::Done,
            Ok(Connection::Exit(false)) => return Status::NoShutdown,
            Err(stop) => return stopped(stop),
        }
    }
}

/// The session, until it ends. A program may be given so many statements.
fn serve<S: Source, K: Sink, B: Library, L: Ledger>(
    alloc: Global,
    budget: u32,
    source: &mut S,
    sink: &mut K,
    library: &mut B,
    steps: &mut Steps<L>,
) -> Status
    ensures plain { IsPlainRun budget (S.waits source.old) (S.waits source.new) (B.calls library.old) (B.calls library.new)
        (S.left source.old) (S.left source.new) (K.held sink.old) (K.held sink.new) result }
    ensures cause { HasStatusCause result (S.faults source.old) (S.faults source.new) (K.faults sink.old) (K.faults sink.new) }
    ensures words { result ≢ Status.BadWords }
    ensures later_source { S.faults source.old ≤ S.faults source.new }
    ensures later_sink { K.faults sink.old ≤ K.faults sink.new }
    ensures later_library { B.faults library.old ≤ B.faults library.new }
{
    let mut session = match Session::new(alloc, budget) {
        Ok(session) => session,
        Err(OutOfMemory) => return Status::OutOfMemory,
    };
    let mut reader = FrameReader::new(alloc);
    serve_session(
        alloc,
        &mut session,
        &mut reader,
        source,
        sink,
        library,
        steps,
    )
}

/// Runs the command that the words after the program's name ask for: `serve` reads messages from the source and writes the
/// answers to the sink, one byte at a time in a header and then at most the missing bytes of the body, so that nothing
/// of the next message is held. After each message it makes Turns, until no program is queued; where fewer than 32
/// messages came since the last Turn, it asks the source first whether more input waits, and then makes none. `bulk` runs a
/// session over a library in memory, and writes six lines of it; the source and the library that are handed in are not called. Any
/// other words are `BadWords`, unless there is no memory to read them, and nothing is read or written.
///
/// Messages ask the library for folders and files. A call that fails is an answer as any other, and ends nothing. An assembly
/// counts in the steps; how much is not said.
pub fn run<S: Source, K: Sink, B: Library, L: Ledger>(
    alloc: Global,
    words: &[String],
    source: &mut S,
    sink: &mut K,
    library: &mut B,
    steps: &mut Steps<L>,
) -> Status
    // The headline.
    ensures plain { (budget : ℕ) → command_of (map string_bytes words.now) ≡ Some (ServeCommand budget) → IsPlainRun budget
        (S.waits source.old) (S.waits source.new) (B.calls library.old) (B.calls library.new)
        (S.left source.old) (S.left source.new) (K.held sink.old) (K.held sink.new) result }

    // The lines of a session of its own.
    ensures bulk { (count : ℕ) → command_of (map string_bytes words.now) ≡ Some (BulkCommand count)
        → Writes (bulk_lines count) (K.held sink.old) (K.held sink.new) result }

    // Each fault has its cause.
    ensures bad_words { result ≡ Status.BadWords → command_of (map string_bytes words.now) ≡ None }
    ensures no_command { command_of (map string_bytes words.now) ≡ None
        → (result ≡ Status.BadWords) ⊎ (result ≡ Status.OutOfMemory) }
    ensures cause { HasStatusCause result (S.faults source.old) (S.faults source.new) (K.faults sink.old) (K.faults sink.new) }

    // A whole session is answered whole.
    ensures complete { (budget : ℕ) → command_of (map string_bytes words.now) ≡ Some (ServeCommand budget)
        → (HasRisen (S.faults source.old) (S.faults source.new) → ⊥)
        → (HasRisen (K.faults sink.old) (K.faults sink.new) → ⊥)
        → Completes budget (S.waits source.old) (S.waits source.new) (B.calls library.old) (B.calls library.new)
        (S.left source.old) (S.left source.new) (K.held sink.old) (K.held sink.new) result }

    // All lines are written.
    ensures bulk_complete { (count : ℕ) → command_of (map string_bytes words.now) ≡ Some (BulkCommand count)
        → (HasRisen (K.faults sink.old) (K.faults sink.new) → ⊥)
        → WritesAll (bulk_lines count) (K.held sink.old) (K.held sink.new) result }

    // With words that ask for no session of an editor nothing is read or asked; with wrong words nothing is written or counted
    // either.
    ensures unread { asks_for_session (map string_bytes words.now) ≡ false
        → (S.left source.new ≡ S.left source.old) × (S.faults source.new ≡ S.faults source.old) }
    ensures unasked { asks_for_session (map string_bytes words.now) ≡ false → S.waits source.new ≡ S.waits source.old }
    ensures unwritten { command_of (map string_bytes words.now) ≡ None
        → (K.held sink.new ≡ K.held sink.old) × (K.faults sink.new ≡ K.faults sink.old) }
    ensures uncalled { asks_for_session (map string_bytes words.now) ≡ false
        → (B.calls library.new ≡ B.calls library.old) × (B.faults library.new ≡ B.faults library.old) }
    ensures uncounted { command_of (map string_bytes words.now) ≡ None → steps.new ≡ steps.old }

    // The counts of faults never fall.
    ensures later_source { S.faults source.old ≤ S.faults source.new }
    ensures later_sink { K.faults sink.old ≤ K.faults sink.new }
    ensures later_library { B.faults library.old ≤ B.faults library.new }
{
    match read_words(alloc, words) {
        Ok(Command::Serve { budget }) => serve(alloc, budget, source, sink, library, steps),
        Ok(Command::Bulk { count }) => bulk(alloc, count, sink, steps),
        Err(WordsFault::BadWords) => Status::BadWords,
        Err(WordsFault::OutOfMemory) => Status::OutOfMemory,
    }
}
