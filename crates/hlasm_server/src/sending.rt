//! What is written for a message, and where it goes.
ghost use Rattle.std.specs.Prelude.{◌≡◌, ◌≤◌, [], IfOk, OnOk, OnErr, IsErr};
ghost use Rattle.io_edge.specs.Told.{Gains, HasRisen};
ghost use Rattle.hlasm_server.specs.Sending.{Hears, MakesTurns, PutsFront, HasStopCause, IsReady};
ghost use Rattle.hlasm_server.specs.Waiting.{Asks, one_more};

use bulk_session::session_core::{Connection, Session, SessionFault};
use hl_base::{Ledger, Steps};
use io_edge::{Failed, Library, Sink, Source};
use std::alloc::Global;

/// After so many messages a Turn is made without asking whether more input waits.
const MOST_HELD: u32 = 32;

/// Why output stops.
#[derive(Clone, Copy, Debug, PartialEq, Eq)]
pub enum Stop {
    /// There was no memory for what comes next.
    OutOfMemory,
    /// The sink refused a call.
    WriteFault,
}

impl From<SessionFault> for Stop {
    ghost use Rattle.hlasm_server.specs.declared.sending.Stop.TheVariants as stop;

    ghost from_gives = { λ _ s. s ≡ stop.OutOfMemory };

    fn from(_refused: SessionFault) -> Stop {
        Stop::OutOfMemory
    }
}

impl From<Failed> for Stop {
    ghost use Rattle.hlasm_server.specs.declared.sending.Stop.TheVariants as stop;

    ghost from_gives = { λ _ s. s ≡ stop.WriteFault };

    fn from(_refused: Failed) -> Stop {
        Stop::WriteFault
    }
}

/// Puts all of the bytes into the sink; where a call is refused, it has a front of them.
pub fn put_all<K: Sink>(sink: &mut K, bytes: &[u8]) -> Result<(), Failed>
    ensures ok { OnOk result (Gains (K.held sink.old) bytes.now (K.held sink.new)) }
    ensures err { OnErr result (PutsFront (K.held sink.old) bytes.now (K.held sink.new)) }
    ensures later { K.faults sink.old ≤ K.faults sink.new }
    ensures failed { IsErr result → HasRisen (K.faults sink.old) (K.faults sink.new) }
{
    let mut left = bytes;
    while !left.is_empty() {
        let count = sink.put(left)?;
        left = left.split_at(count).1;
    }
    Ok(())
}

/// Puts the session's output into the sink, and leaves it with none.
fn put_output<K: Sink>(session: &mut Session, sink: &mut K) -> Result<(), Failed>
    ensures ok { OnOk result (Gains (K.held sink.old) session.old.output (K.held sink.new)) }
    ensures err { OnErr result (PutsFront (K.held sink.old) session.old.output (K.held sink.new)) }
    ensures rest { session.new ≡ record session.old { output = [] } }
    ensures later { K.faults sink.old ≤ K.faults sink.new }
    ensures failed { IsErr result → HasRisen (K.faults sink.old) (K.faults sink.new) }
{
    let output = session.take_output();
    put_all(sink, &output)
}

/// One message more since the last Turn.
fn one_more(since: u32) -> u32
    ensures { result ≡ one_more since }
{
    since.saturating_add(1).min(MOST_HELD)
}

/// Whether the next Turn is held back: few messages came since the last one, and more input waits.
fn is_held<S: Source>(source: &mut S, since: u32) -> bool
    ensures asks { Asks since result (S.waits source.old) (S.waits source.new) }
    ensures left { S.left source.new ≡ S.left source.old }
    ensures faults { S.faults source.new ≡ S.faults source.old }
{
    if since < MOST_HELD {
        source.waiting()
    } else {
        false
    }
}

/// Makes Turns until no program is queued or the next is held back, and puts what each publishes into the sink. The count
/// is that of the messages since the last Turn.
fn make_turns<S: Source, K: Sink, L: Ledger>(
    alloc: Global,
    session: &mut Session,
    since: &mut u32,
    source: &mut S,
    sink: &mut K,
    steps: &mut Steps<L>,
) -> Result<(), Stop>
    requires ready { IsReady session.old }
    ensures ready { OnOk result (IsReady session.new) }
    ensures makes { MakesTurns result session.old.state since.old session.new.state since.new
        (S.waits source.old) (S.waits source.new) (K.held sink.old) (K.held sink.new) }
    ensures left { S.left source.new ≡ S.left source.old }
    ensures faults { S.faults source.new ≡ S.faults source.old }
    ensures later { K.faults sink.old ≤ K.faults sink.new }
    ensures cause { HasStopCause result (K.faults sink.old) (K.faults sink.new) }
{
    'queue: while session.has_work() {
        if is_held(source, *since) {
            return Ok(());
        }
        session.turn(alloc, steps)?;
        put_output(session, sink)?;
        *since = 0;
    }
    Ok(())
}

/// Takes one message, with the calls of the library that it makes, and makes the Turns that follow it, and puts what is written
/// into the sink as it comes.
pub fn hear_and_send<S: Source, K: Sink, B: Library, L: Ledger>(
    alloc: Global,
    session: &mut Session,
    since: &mut u32,
    body: &[u8],
    source: &mut S,
    sink: &mut K,
    library: &mut B,
    steps: &mut Steps<L>,
) -> Result<Connection, Stop>
    requires ready { IsReady session.old }
    ensures ready { IfOk result (λ connection. connection ≡ Connection.Running → IsReady session.new) }
    ensures hears { Hears result session.old.state since.old body.now session.new.state since.new
        (S.waits source.old) (S.waits source.new) (B.calls library.old) (B.calls library.new)
        (K.held sink.old) (K.held sink.new) }
    ensures left { S.left source.new ≡ S.left source.old }
    ensures faults { S.faults source.new ≡ S.faults source.old }
    ensures later { K.faults sink.old ≤ K.faults sink.new }
    ensures cause { HasStopCause result (K.faults sink.old) (K.faults sink.new) }
    ensures later_library { B.faults library.old ≤ B.faults library.new }
{
    match session.message(alloc, body, library, steps)? {
        Connection::Running => {
            put_output(session, sink)?;
            *since = one_more(*since);
            make_turns(alloc, session, since, source, sink, steps)?;
            Ok(Connection::Running)
        }
        Connection::Exit(closed) => Ok(Connection::Exit(closed)),
    }
}
