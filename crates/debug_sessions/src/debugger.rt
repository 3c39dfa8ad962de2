//! One debug session, and what each command does in it. After an `Err` a session is not to be used.
ghost use Rattle.std.specs.Prelude.{◌≡◌, false, Option, option_map, IfOk};
ghost use Rattle.dap_messages.specs.Written.{body_of, body_has_fraction, capabilities_value, breakpoints_value, threads_value, scopes_value, continued_value};
ghost use Rattle.debug_sessions.specs.State.{begun};
ghost use Rattle.debug_sessions.specs.Launches.{launch_of, with_lines};
ghost use Rattle.debug_sessions.specs.Stops.{Halt};
ghost use Rattle.debug_sessions.specs.Shown.{asked};
ghost use Rattle.debug_sessions.specs.Answers as answers;
ghost use Rattle.debug_sessions.specs.Done.{IsDone, Comes, IsReplied};

use crate::breakpoints::{Breakpoints, PathLines};
use crate::effects::{Done, Replies};
use crate::event::Event;
use crate::launch::Launch;
use crate::launched::Launched;
use crate::replies::messages_of;
use crate::shown::{stack_told, variables_told};
use crate::wants::{asked, frame_of_reference, is_global};
use dap_messages::{
    BreakLines, DapCommand, DapIn, StopReason, breakpoints_body, capabilities_body, continued_body,
    scopes_body, threads_body,
};
use document_store::DocumentStore;
use hl_base::{OutOfMemory, Text};
use macro_debugger::StepRule;
use serde_json::Value;
use std::alloc::Global;

/// A debug session: its number, how many messages it has sent, its breakpoints and its launch, if there was one.
#[derive(Drop)]
pub(crate) struct Debugger {
    pub(crate) number: u32,
    pub(crate) seq: u64,
    pub(crate) breakpoints: Breakpoints,
    pub(crate) launch: Option<Launch>,
}

/// A stop for a reason, or the end.
fn event_of(reason: Option<StopReason>) -> Event
    ensures { (halt : Option Halt) → reason ≡ option_map (λ h. h.reason) halt → result ≡ answers.event_of halt }
{
    match reason {
        Some(reason) => Event::Stopped { reason },
        None => Event::Terminated,
    }
}

impl Debugger {
    /// A session that is just begun.
    pub(crate) fn begun(alloc: Global, number: u32) -> Debugger
        ensures { result ≡ begun number }
    {
        Debugger {
            number,
            seq: 0,
            breakpoints: Breakpoints::none(alloc),
            launch: None,
        }
    }

    /// Does what a request asks that is not refused, and answers what is written for it.
    pub(crate) fn answer(
        &mut self,
        alloc: Global,
        request: DapIn,
        store: &DocumentStore,
        launched: Option<Launched>,
    ) -> Result<Replies, OutOfMemory>
        ensures { IfOk result (λ replies. IsReplied replies self.new self.old.seq request
            (answers.effect store.now.store.paths launched self.old request.command)) }
    {
        let DapIn {
            seq: number,
            command,
        } = request;
        let name = command.name();
        let mut seq = self.seq;
        let done = self.obey(alloc, command, store, launched)?;
        let stays = done.stays;
        let messages = messages_of(alloc, name, number, &mut seq, done)?;
        self.seq = seq;
        Ok(Replies { stays, messages })
    }

    /// Does what a request asks.
    fn obey(
        &mut self,
        alloc: Global,
        command: DapCommand,
        store: &DocumentStore,
        launched: Option<Launched>,
    ) -> Result<Done, OutOfMemory>
        ensures { Comes result self.new (answers.effect store.now.store.paths launched self.old command) }
    {
        match command {
            DapCommand::Initialize => self.initialize(alloc),
            DapCommand::Launch { stop_on_entry, .. } => Ok(self.launch(launched, stop_on_entry)),
            DapCommand::SetBreakpoints { path, lines } => self.set_breakpoints(alloc, path, lines),
            DapCommand::ConfigurationDone => self.start(alloc, store),
            DapCommand::Threads => self.threads(alloc),
            DapCommand::StackTrace => self.stack_trace(alloc, store),
            DapCommand::Scopes { frame } => self.scopes(alloc, frame),
            DapCommand::Variables { reference } => self.variables(alloc, reference),
            DapCommand::Next => self.step(alloc, store, StepRule::Over, None),
            DapCommand::StepIn => self.step(alloc, store, StepRule::In, None),
            DapCommand::StepOut => self.step(alloc, store, StepRule::Out, None),
            DapCommand::Continue => self.go_on(alloc, store),
            DapCommand::Disconnect => Ok(self.disconnect()),
        }
    }

    fn initialize(&mut self, alloc: Global) -> Result<Done, OutOfMemory>
        ensures { Comes result self.new (record {
          debugger = Some self.old;
          body = Some capabilities_value;
          event = Some Event.Initialized;
        }) }
    {
        let body = capabilities_body(alloc)?;
        Ok(Done {
            stays: true,
            body: Some(body),
            event: Some(Event::Initialized),
        })
    }

    fn launch(&mut self, launched: Option<Launched>, stops_on_entry: bool) -> Done
        ensures { IsDone result self.new (answers.becomes (record self.old { launch = option_map (launch_of stops_on_entry) launched })) }
    {
        self.launch = match launched {
            Some(launched) => Some(Launch::of(launched, stops_on_entry)),
            None => None,
        };
        Done::quiet()
    }

    fn set_breakpoints(
        &mut self,
        alloc: Global,
        path: Text,
        lines: BreakLines,
    ) -> Result<Done, OutOfMemory>
        ensures { Comes result self.new (answers.tells (record self.old {
          breakpoints = with_lines (record { path = path; lines = lines }) self.old.breakpoints;
        }) (breakpoints_value lines)) }
    {
        let body = breakpoints_body(alloc, lines.as_slice())?;
        self.breakpoints.set(PathLines { path, lines })?;
        Ok(Done::telling(body))
    }

    fn start(&mut self, alloc: Global, store: &DocumentStore) -> Result<Done, OutOfMemory>
        ensures { Comes result self.new (answers.of_launch self.old (answers.begins store.now.store.paths self.old)) }
    {
        let Some(launch) = &mut self.launch else {
            return Ok(Done::quiet());
        };
        if launch.is_started() {
            return Ok(Done::quiet());
        }
        let reason = launch.start(alloc, store, self.breakpoints.as_slice())?;
        Ok(Done {
            stays: true,
            body: None,
            event: Some(event_of(reason)),
        })
    }

    fn threads(&mut self, alloc: Global) -> Result<Done, OutOfMemory>
        ensures { Comes result self.new (answers.tells self.old threads_value) }
    {
        let body = threads_body(alloc)?;
        Ok(Done::telling(body))
    }

    fn stack_trace(&mut self, alloc: Global, store: &DocumentStore) -> Result<Done, OutOfMemory>
        ensures { Comes result self.new (answers.stack_told store.now.store.paths self.old) }
    {
        let Some(launch) = &self.launch else {
            return Ok(Done::quiet());
        };
        if !launch.is_stopped() {
            return Ok(Done::quiet());
        }
        let frames = launch.stack(alloc)?;
        let body = stack_told(alloc, store, frames.as_slice())?;
        Ok(Done::telling(body))
    }

    fn scopes(&mut self, alloc: Global, frame: i32) -> Result<Done, OutOfMemory>
        ensures { Comes result self.new (answers.tells self.old (scopes_value (asked frame))) }
    {
        let body = scopes_body(alloc, asked(frame))?;
        Ok(Done::telling(body))
    }

    fn variables(&mut self, alloc: Global, reference: i32) -> Result<Done, OutOfMemory>
        ensures { Comes result self.new (answers.variables_told self.old (asked reference)) }
    {
        let Some(launch) = &self.launch else {
            return Ok(Done::quiet());
        };
        if !launch.is_stopped() {
            return Ok(Done::quiet());
        }
        let reference = asked(reference);
        let frame = frame_of_reference(reference);
        let rows = launch.variables(alloc, frame, is_global(reference))?;
        let body = variables_told(alloc, rows.as_slice())?;
        Ok(Done::telling(body))
    }

    /// Takes a step, whose response carries this.
    fn step(
        &mut self,
        alloc: Global,
        store: &DocumentStore,
        rule: StepRule,
        body: Option<Value>,
    ) -> Result<Done, OutOfMemory>
        requires whole { body_has_fraction body ≡ false }
        ensures { Comes result self.new (answers.steps store.now.store.paths self.old rule (body_of body)) }
    {
        let Some(launch) = &mut self.launch else {
            return Ok(Done::quiet());
        };
        if !launch.is_stopped() {
            return Ok(Done::quiet());
        }
        let reason = launch.step(alloc, store, self.breakpoints.as_slice(), rule)?;
        Ok(Done {
            stays: true,
            body,
            event: Some(event_of(reason)),
        })
    }

    fn go_on(&mut self, alloc: Global, store: &DocumentStore) -> Result<Done, OutOfMemory>
        ensures { Comes result self.new (answers.steps store.now.store.paths self.old StepRule.Continue (Some continued_value)) }
    {
        let body = continued_body(alloc)?;
        self.step(alloc, store, StepRule::Continue, Some(body))
    }

    fn disconnect(&mut self) -> Done
        ensures { IsDone result self.new (record { debugger = None; body = None; event = None }) }
    {
        Done {
            stays: false,
            body: None,
            event: None,
        }
    }
}
