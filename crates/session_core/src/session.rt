//! The session, as `run` drives it.
ghost use Rattle.std.specs.Prelude.{◌≡◌, ◌≢◌, ◌≤◌, [], IfOk, OnOk, OnErr, MatchBool};
ghost use Rattle.std.specs.Str.{chars};
ghost use Rattle.session_core.specs.Figures.{figures_named, summary_named, global_named};
ghost use Rattle.session_core.specs.SessionView.{beginning, connection_of, ComesTo, ComesOver};
ghost use Rattle.session_core.specs.Inside.{Adds, HearsOver, KeepsOutput};
ghost use Rattle.session_core.specs.Message.{event, message};
ghost use Rattle.session_core.specs.Turn.{turn};

use crate::session_state::SessionState;
use crate::state::Stage;
use crate::{Connection, SessionFault};
use hl_base::{Ledger, Name, OutOfMemory, Steps};
use io_edge::Library;
use program_names::program_assembly::{Figures, KeptExpansions, Summary};
use std::alloc::Global;
use std::marker::Model;
use std::mem;

/// One client's session. It is told of messages and of the moments at which a Turn may be made, and keeps what it writes
/// until that is taken. Contracts see the state, the bytes that are not taken yet, and whether memory has run out.
#[derive(Drop)]
pub struct Session {
    session_state: SessionState,
    output: Vec<u8>,
    spent: bool,
    // Given out in place of the output: a `Vec` that takes no memory needs an allocator all the same.
    alloc: Global,
}

impl Model for Session {
    ghost use Rattle.session_core.specs.Codes.{held_code};
    ghost use Rattle.session_core.specs.SessionView.{SessionView};

    ghost Value = { SessionView };

    ghost coded = { held_code };

    ghost view = { λ s. record { state = s.session_state; output = s.output.items; spent = s.spent } };
}

/// How a session stands to its client.
fn connection_of(session_state: &SessionState) -> Connection
    ensures { result ≡ connection_of session_state.now }
{
    match session_state.stage() {
        Stage::Ended { closed } => Connection::Exit(closed),
        _ => Connection::Running,
    }
}

impl Session {
    /// Before the first message. A program may be given so many statements in a Turn.
    pub fn new(alloc: Global, budget: u32) -> Result<Session, OutOfMemory>
        ensures { IfOk result (λ session. session ≡ beginning budget) }
    {
        Ok(Session {
            session_state: SessionState::new(alloc, budget),
            output: Vec::new(alloc),
            spent: false,
            alloc,
        })
    }

    /// Takes a message, and adds what is written for it to the output last.
    fn add_message<B: Library, L: Ledger>(
        &mut self,
        alloc: Global,
        body: &[u8],
        library: &mut B,
        steps: &mut Steps<L>,
    ) -> Result<(), OutOfMemory>
        ensures heard { HearsOver (event self.old.state body.now) result (B.calls library.old) (B.calls library.new) self.old self.new }
        ensures later { B.faults library.old ≤ B.faults library.new }
    {
        let bodies = self.session_state.message(alloc, body, library, steps)?;
        bodies.write_to(alloc, &mut self.output)
    }

    /// Makes a Turn, and adds what it publishes to the output last.
    fn add_turn<L: Ledger>(
        &mut self,
        alloc: Global,
        steps: &mut Steps<L>,
    ) -> Result<(), OutOfMemory>
        ensures ok { OnOk result (Adds (turn self.old.state) self.old self.new) }
        ensures err { OnErr result (KeepsOutput self.old self.new) }
    {
        let bodies = self.session_state.turn(alloc, steps)?;
        bodies.write_to(alloc, &mut self.output)
    }

    /// Takes the body of one message (LSP 3.17, "Base Protocol"): what it comes to is told by the calls of the library that it
    /// makes, with their answers. A call that fails is an answer too.
    pub fn message<B: Library, L: Ledger>(
        &mut self,
        alloc: Global,
        body: &[u8],
        library: &mut B,
        steps: &mut Steps<L>,
    ) -> Result<Connection, SessionFault>
        ensures comes { ComesOver result (message self.old.state body.now) (B.calls library.old) (B.calls library.new) self.old self.new }
        ensures connection { IfOk result (λ connection. connection ≡ connection_of self.new.state) }
        ensures later { B.faults library.old ≤ B.faults library.new }
    {
        if self.spent {
            return Err(SessionFault::Spent);
        }
        match self.add_message(alloc, body, library, steps) {
            Ok(()) => Ok(connection_of(&self.session_state)),
            Err(_) => {
                self.spent = true;
                Err(SessionFault::OutOfMemory)
            }
        }
    }

    /// Whether a program is queued, so that a Turn may be made.
    pub fn has_work(&self) -> bool
        ensures { MatchBool result (self.now.state.queue ≢ []) (self.now.state.queue ≡ []) }
    {
        self.session_state.has_work()
    }

    /// Makes one Turn: the list of the first queued program is published, unless it was already. The library is asked nothing.
    pub fn turn<L: Ledger>(
        &mut self,
        alloc: Global,
        steps: &mut Steps<L>,
    ) -> Result<(), SessionFault>
        requires work { self.old.state.queue ≢ [] }
        ensures comes { ComesTo result (turn self.old.state) self.old self.new }
    {
        if self.spent {
            return Err(SessionFault::Spent);
        }
        match self.add_turn(alloc, steps) {
            Ok(()) => Ok(()),
            Err(_) => {
                self.spent = true;
                Err(SessionFault::OutOfMemory)
            }
        }
    }

    /// The bytes that were written since they were last taken, each body in a frame.
    pub fn take_output(&mut self) -> Vec<u8>
        ensures output { result.items ≡ self.old.output }
        ensures rest { self.new ≡ record self.old { output = [] } }
    {
        mem::replace(&mut self.output, Vec::new(self.alloc))
    }

    /// How many points, ordinary symbols and notes an assembly has of the program that a URI names: of its text, its group's members
    /// and the configuration as they are now. There are none where it is no assembled program: a program is one from its first Turn
    /// on, but while it is queued. It is assembled for it once more, and nothing changes.
    pub fn summary<L: Ledger>(
        &self,
        alloc: Global,
        uri: &str,
        steps: &mut Steps<L>,
    ) -> Result<Option<Summary>, OutOfMemory>
        ensures { IfOk result (λ summary. summary ≡ summary_named self.now.state (chars uri.now)) }
    {
        let mut nothing = KeptExpansions::new(alloc);
        match self
            .session_state
            .figures_named(alloc, uri, &mut nothing, steps)?
        {
            Some(figures) => Ok(Some(figures.summary)),
            None => Ok(None),
        }
    }

    /// What the global SETA symbol of a name holds at the end of that assembly. There is none where it is no assembled program, and
    /// where no such symbol is declared in it without a subscript.
    pub fn global_at_end<L: Ledger>(
        &self,
        alloc: Global,
        uri: &str,
        name: &Name,
        steps: &mut Steps<L>,
    ) -> Result<Option<i32>, OutOfMemory>
        ensures { IfOk result (λ number. number ≡ global_named self.now.state (chars uri.now) name.now) }
    {
        let mut nothing = KeptExpansions::new(alloc);
        match self
            .session_state
            .figures_named(alloc, uri, &mut nothing, steps)?
        {
            Some(figures) => Ok(figures.global(name)),
            None => Ok(None),
        }
    }

    /// All figures of that assembly at once. What the last Turn expanded is not expanded again, so this costs less than the two
    /// calls above; nothing that can be seen changes.
    pub fn figures<L: Ledger>(
        &mut self,
        alloc: Global,
        uri: &str,
        steps: &mut Steps<L>,
    ) -> Result<Option<Figures>, OutOfMemory>
        ensures figures { IfOk result (λ figures. figures ≡ figures_named self.old.state (chars uri.now)) }
        ensures same { self.new ≡ self.old }
    {
        self.session_state.figures_kept(alloc, uri, steps)
    }
}
