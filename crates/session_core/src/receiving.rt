//! One message, from its body to what it does (JSON-RPC 2.0; LSP 3.17, "Base Protocol"). After an `Err` the state is not
//! to be used.
ghost use Rattle.std.specs.Prelude.{◌≡◌, ◌≢◌, IfOk, Result, Ok, Err};
ghost use Rattle.serde_json.specs.View.{view};
ghost use Rattle.json_view.specs.Answers.{Answers};
ghost use Rattle.json_view.specs.Texts.{reading};
ghost use Rattle.lsp_messages.specs.Messages.{said_by};
ghost use Rattle.lsp_messages.specs.declared.incoming.LspIn.{LspIn};
ghost use Rattle.lsp_messages.specs.declared.incoming.Refusal.{Refusal};
ghost use Rattle.session_core.specs.Message as messages;
ghost use Rattle.session_core.specs.Refusals.{is_ended};
ghost use Rattle.session_core.specs.Step.{Acts};
ghost use Rattle.library_reading.specs.Asked.{AsksOver};

use crate::bodies::Bodies;
use crate::replies;
use crate::session_state::SessionState;
use crate::state::Stage;
use hl_base::{Ledger, OutOfMemory, Steps};
use io_edge::Library;
use json_view::{ParseFault, parse};
use lsp_messages::{LspIn, Refusal, is_response, read_lsp};
use serde_json::Value;
use std::alloc::Global;
use waiting_requests::Question;

impl SessionState {
    /// Takes one message, and answers what is written for it; then the requests that wait are answered, if no program is queued.
    pub(crate) fn message<B: Library, L: Ledger>(
        &mut self,
        alloc: Global,
        body: &[u8],
        library: &mut B,
        steps: &mut Steps<L>,
    ) -> Result<Bodies, OutOfMemory>
        ensures { AsksOver (messages.event self.old body.now) (λ bodies. record { state = self.new; bodies = bodies }) result
            (B.calls library.old) (B.calls library.new) (B.faults library.old) (B.faults library.new) }
    {
        if self.is_ended() {
            return Ok(Bodies::none(alloc));
        }
        let bodies = self.receive(alloc, body, library, steps)?;
        self.conclude(alloc, bodies, steps)
    }

    /// Takes one message while the session goes on.
    fn receive<B: Library, L: Ledger>(
        &mut self,
        alloc: Global,
        body: &[u8],
        library: &mut B,
        steps: &mut Steps<L>,
    ) -> Result<Bodies, OutOfMemory>
        ensures { AsksOver (messages.received self.old (reading body.now)) (λ bodies. record { state = self.new; bodies = bodies }) result
            (B.calls library.old) (B.calls library.new) (B.faults library.old) (B.faults library.new) }
    {
        match parse(alloc, body) {
            Ok(value) => self.take_value(alloc, &value, library, steps),
            Err(ParseFault::NotJson) => {
                let refusal = replies::parse_error(alloc)?;
                Bodies::one(alloc, refusal)
            }
            Err(ParseFault::OutOfMemory) => Err(OutOfMemory),
        }
    }

    /// Whether `exit` came.
    fn is_ended(&self) -> bool
        ensures { result ≡ is_ended self.now.stage }
    {
        match self.stage {
            Stage::Fresh => false,
            Stage::Active => false,
            Stage::Closing => false,
            Stage::Ended { .. } => true,
        }
    }

    /// Takes a value; the answers of a client are passed over, since nothing was asked of it.
    fn take_value<B: Library, L: Ledger>(
        &mut self,
        alloc: Global,
        value: &Value,
        library: &mut B,
        steps: &mut Steps<L>,
    ) -> Result<Bodies, OutOfMemory>
        ensures { AsksOver (messages.heard self.old (view value.now)) (λ bodies. record { state = self.new; bodies = bodies }) result
            (B.calls library.old) (B.calls library.new) (B.faults library.old) (B.faults library.new) }
    {
        if is_response(value) {
            return Ok(Bodies::none(alloc));
        }
        let told = read_lsp(alloc, value);
        self.answer(alloc, told, library, steps)
    }

    /// Takes a message, or what was read in place of one.
    fn answer<B: Library, L: Ledger>(
        &mut self,
        alloc: Global,
        told: Result<LspIn, Refusal>,
        library: &mut B,
        steps: &mut Steps<L>,
    ) -> Result<Bodies, OutOfMemory>
        ensures { (wanted : Result LspIn Refusal) → Answers said_by told wanted
            → AsksOver (messages.asked self.old wanted)
            (λ bodies. record { state = self.new; bodies = bodies }) result
            (B.calls library.old) (B.calls library.new) (B.faults library.old) (B.faults library.new) }
    {
        match told {
            Ok(message) => self.take(alloc, message, library, steps),
            Err(refusal) => self.refuse(alloc, refusal),
        }
    }

    /// Takes a message of a known method with right parameters.
    fn take<B: Library, L: Ledger>(
        &mut self,
        alloc: Global,
        message: LspIn,
        library: &mut B,
        steps: &mut Steps<L>,
    ) -> Result<Bodies, OutOfMemory>
        ensures { AsksOver (messages.asked self.old (Ok message)) (λ bodies. record { state = self.new; bodies = bodies }) result
            (B.calls library.old) (B.calls library.new) (B.faults library.old) (B.faults library.new) }
    {
        match message {
            LspIn::Initialize { id, root } => self.initialize(alloc, id, root),
            LspIn::Shutdown { id } => self.shutdown(alloc, id, steps),
            LspIn::Definition { id, uri, at } => {
                self.ask(alloc, id, uri, Question::Definition { at })
            }
            LspIn::References {
                id,
                uri,
                at,
                declarations,
            } => self.ask(alloc, id, uri, Question::References { at, declarations }),
            LspIn::Hover { id, uri, at } => self.ask(alloc, id, uri, Question::Hover { at }),
            LspIn::DocumentSymbol { id, uri } => self.ask(alloc, id, uri, Question::Symbols),
            LspIn::Exit => Ok(self.exit(alloc)),
            LspIn::Initialized => self.initialized(alloc, library),
            LspIn::DidOpen {
                uri,
                language,
                version,
                text,
            } => self.opened(alloc, &uri, &language, version, &text),
            LspIn::DidChange {
                uri,
                version,
                edits,
            } => self.changed(alloc, &uri, version, edits.as_slice()),
            LspIn::DidClose { uri } => self.closed(alloc, &uri),
            LspIn::DidSave => Ok(Bodies::none(alloc)),
            LspIn::DidChangeConfiguration => Ok(Bodies::none(alloc)),
            LspIn::DidChangeWatchedFiles { changes } => {
                self.watched(alloc, changes.as_slice(), library)
            }
            LspIn::Cancel { id } => self.cancel(alloc, id),
            LspIn::Dap { session, message } => self.debugged(alloc, session, &message, steps),
        }
    }

    /// Takes what is no message that is understood.
    fn refuse(&mut self, alloc: Global, refusal: Refusal) -> Result<Bodies, OutOfMemory>
        ensures { IfOk result (λ bodies. (refusal ≢ Refusal.OutOfMemory) × Acts (messages.asked self.old (Err refusal)) self.new bodies) }
    {
        match refusal {
            Refusal::NotRequest => {
                let body = replies::invalid_request(alloc, None)?;
                Bodies::one(alloc, body)
            }
            Refusal::UnknownMethod(head) => self.unknown_method(alloc, head),
            Refusal::BadParams(head, name) => self.bad_params(alloc, head, name),
            Refusal::OutOfMemory => Err(OutOfMemory),
        }
    }
}
