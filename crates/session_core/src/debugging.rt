//! Debug messages: `hlasm/dap` (Debug Adapter Protocol). While the session is not active they are passed over. After an `Err` the
//! state is not to be used.
ghost use Rattle.std.specs.Prelude.{◌≡◌, ◌<◌, false, length, map, Some, Ok, IfOk};
ghost use Rattle.std.specs.Str.{chars};
ghost use Rattle.document_store.specs.Shown.{IsShown};
ghost use Rattle.group_members.specs.Members.{Indexes};
ghost use Rattle.lsp_messages.specs.declared.incoming.LspIn.TheVariants as said;
ghost use Rattle.dap_messages.specs.Requests.{request_of};
ghost use Rattle.dap_messages.specs.Written.{value_of, has_fraction};
ghost use Rattle.debug_sessions.specs.Written.{AreWhole, IsWholeAnswer, messages_in};
ghost use Rattle.session_core.specs.Debugging.{launched_at, program_trace, launched_by, debug_body, debug_bodies, debugged};
ghost use Rattle.session_core.specs.Message as messages;
ghost use Rattle.session_core.specs.Inside.{TellsTrace};
ghost use Rattle.session_core.specs.State.{document_at};
ghost use Rattle.session_core.specs.Step.{Acts, IsEffect};

use crate::bodies::Bodies;
use crate::lists::Surroundings;
use crate::programs::{document_at, is_program_shown};
use crate::replies;
use crate::session_state::SessionState;
use dap_messages::{DapIn, DapOut, DapRefusal, read_dap};
use debug_sessions::{Answer, Launched};
use document_store::Document;
use group_members::MemberIndex;
use hl_base::{Ledger, OutOfMemory, PathId, Steps};
use lsp_messages::DebugMessage;
use std::alloc::Global;

/// The body of a message to the client of a debug session.
fn message_body(alloc: Global, session: u32, message: &DapOut) -> Result<Vec<u8>, OutOfMemory>
    requires whole { has_fraction message.now ≡ false }
    ensures { IfOk result (λ body. body.items ≡ debug_body session (value_of message.now)) }
{
    let value = message.value(alloc)?;
    replies::debug_body(alloc, session, value)
}

/// The bodies of messages to the client of a debug session.
fn message_bodies(alloc: Global, session: u32, messages: &[DapOut]) -> Result<Bodies, OutOfMemory>
    requires whole { AreWhole messages.now }
    ensures { IfOk result (λ bodies. bodies ≡ map (debug_body session) (map value_of messages.now)) }
{
    let mut bodies = Bodies::none(alloc);
    for message in messages {
        bodies.push(message_body(alloc, session, message)?)?;
    }
    Ok(bodies)
}

/// What is written for a debug message.
fn said_bodies(alloc: Global, session: u32, said: &Answer) -> Result<Bodies, OutOfMemory>
    requires whole { IsWholeAnswer said.now }
    ensures { IfOk result (λ bodies. bodies ≡ debug_bodies session (messages_in said.now)) }
{
    match said {
        Answer::NotDap => {
            let line = replies::log_line(alloc, "hlasm/dap", "NotDap")?;
            Bodies::one(alloc, line)
        }
        Answer::Messages(messages) => message_bodies(alloc, session, messages.as_slice()),
    }
}

impl SessionState {
    /// The trace of the program of a document, as it is shown, where members are found so.
    fn trace_over<L: Ledger>(
        &self,
        alloc: Global,
        index: &MemberIndex,
        path: PathId,
        document: &Document<'_>,
        steps: &mut Steps<L>,
    ) -> Result<Launched, OutOfMemory>
        requires given { path.0 < length self.now.store.paths }
        requires shown { IsShown self.now.store.paths (document_at self.now.store path) (Some document.now) }
        requires index { Indexes self.now.store index.now }
        ensures { IfOk result (λ trace. TellsTrace self.now path document.now trace) }
    {
        let around = Surroundings {
            root: self.root.as_ref(),
            configuration: &self.configuration,
            folders: &self.folders,
            store: &self.store,
            index,
            budget: self.budget,
        };
        around.trace_of(alloc, path, document, steps)
    }

    /// The trace of the program of a document, as it is shown.
    fn trace_at<L: Ledger>(
        &self,
        alloc: Global,
        path: PathId,
        document: &Document<'_>,
        steps: &mut Steps<L>,
    ) -> Result<Launched, OutOfMemory>
        requires given { path.0 < length self.now.store.paths }
        requires shown { IsShown self.now.store.paths (document_at self.now.store path) (Some document.now) }
        ensures { IfOk result (λ trace. TellsTrace self.now path document.now trace) }
    {
        match &self.index {
            Some(index) => self.trace_over(alloc, index, path, document, steps),
            None => {
                let index = MemberIndex::of(alloc, &self.store)?;
                self.trace_over(alloc, &index, path, document, steps)
            }
        }
    }

    /// What is launched of the document of a number: the trace of an open program.
    fn launched_at<L: Ledger>(
        &self,
        alloc: Global,
        path: PathId,
        steps: &mut Steps<L>,
    ) -> Result<Option<Launched>, OutOfMemory>
        ensures { IfOk result (λ trace. trace ≡ launched_at self.now path) }
    {
        let Some(document) = document_at(&self.store, path) else {
            return Ok(None);
        };
        if !is_program_shown(&self.folders, &self.store, &document) {
            return Ok(None);
        }
        let trace = self.trace_at(alloc, path, &document, steps)?;
        Ok(Some(trace))
    }

    /// What is launched of the document of a path.
    fn program_trace<L: Ledger>(
        &self,
        alloc: Global,
        path: &str,
        steps: &mut Steps<L>,
    ) -> Result<Option<Launched>, OutOfMemory>
        ensures { IfOk result (λ trace. trace ≡ program_trace self.now (chars path.now)) }
    {
        match self.store.path_id(path) {
            Some(number) => self.launched_at(alloc, number, steps),
            None => Ok(None),
        }
    }

    /// The trace of the program that a debug message launches, where it launches an open one.
    fn launched<L: Ledger>(
        &self,
        alloc: Global,
        session: u32,
        read: &Result<DapIn, DapRefusal>,
        steps: &mut Steps<L>,
    ) -> Result<Option<Launched>, OutOfMemory>
        ensures { IfOk result (λ trace. trace ≡ launched_by self.now session read.now) }
    {
        match self.debuggers.wants_launch(session, read) {
            Some(path) => self.program_trace(alloc, path.as_str(), steps),
            None => Ok(None),
        }
    }

    /// Takes a debug message, as it was read.
    fn debug<L: Ledger>(
        &mut self,
        alloc: Global,
        session: u32,
        read: Result<DapIn, DapRefusal>,
        steps: &mut Steps<L>,
    ) -> Result<Bodies, OutOfMemory>
        ensures { IfOk result (λ bodies. IsEffect (debugged self.old session read) self.new bodies) }
    {
        let launched = self.launched(alloc, session, &read, steps)?;
        let said = self
            .debuggers
            .answer(alloc, session, read, &self.store, launched)?;
        said_bodies(alloc, session, &said)
    }

    /// Reads a debug message, and takes it.
    fn read_debug<L: Ledger>(
        &mut self,
        alloc: Global,
        session: u32,
        message: &DebugMessage,
        steps: &mut Steps<L>,
    ) -> Result<Bodies, OutOfMemory>
        ensures { IfOk result (λ bodies. IsEffect (debugged self.old session (request_of message.now)) self.new bodies) }
    {
        match read_dap(alloc, message.as_json()) {
            Ok(request) => self.debug(alloc, session, Ok(request), steps),
            Err(DapRefusal::OutOfMemory) => Err(OutOfMemory),
            Err(DapRefusal::NotDap) => self.debug(alloc, session, Err(DapRefusal::NotDap), steps),
            Err(DapRefusal::UnknownCommand(head)) => {
                let read = Err(DapRefusal::UnknownCommand(head));
                self.debug(alloc, session, read, steps)
            }
            Err(DapRefusal::BadArguments(head)) => {
                let read = Err(DapRefusal::BadArguments(head));
                self.debug(alloc, session, read, steps)
            }
        }
    }

    /// `hlasm/dap`.
    pub(crate) fn debugged<L: Ledger>(
        &mut self,
        alloc: Global,
        session: u32,
        message: &DebugMessage,
        steps: &mut Steps<L>,
    ) -> Result<Bodies, OutOfMemory>
        ensures { IfOk result (λ bodies. Acts (messages.asked self.old (Ok (said.Dap session message.now))) self.new bodies) }
    {
        if !self.is_active() {
            return Ok(Bodies::none(alloc));
        }
        self.read_debug(alloc, session, message, steps)
    }
}
