//! What a session keeps of its launch: the trace, and where the program is stopped in it.
ghost use Rattle.std.specs.Prelude.{◌≡◌, true, false, IsSome, is_some, option_map, reverse, IfOk};
ghost use Rattle.std.specs.Option.{ForSome};
ghost use Rattle.debug_sessions.specs.Launches.{launch_of};
ghost use Rattle.debug_sessions.specs.Stops.{Halt, first_halt, next_halt, halted};
ghost use Rattle.debug_sessions.specs.Shown.{stack_at, rows_of};

use crate::breakpoints::PathLines;
use crate::launched::Launched;
use crate::walking::{begin, go};
use crate::wants::is_frame;
use dap_messages::StopReason;
use document_store::DocumentStore;
use hl_base::{Frames, OutOfMemory};
use macro_debugger::{Debug, StepRule};
use std::alloc::Global;
use std::marker::Model;
use trace_arena::TraceArena;
use trace_values::{TraceItem, Variables};

/// A launch. It owns its trace, so nothing that is assembled later changes it.
#[derive(Drop)]
pub(crate) struct Launch {
    arena: TraceArena<TraceItem>,
    debug: Debug,
    stops_on_entry: bool,
    // Whether configurationDone came.
    is_started: bool,
    // Whether the program is stopped where `debug` stands.
    is_stopped: bool,
}

impl Model for Launch {
    ghost use Rattle.debug_sessions.specs.Launches.{Launch};
    ghost use Rattle.debug_sessions.specs.Inside.{IsSound, stop_at};
    ghost use Rattle.trace_arena.specs.Points.{points};

    ghost Value = { Launch };

    ghost view = { λ l. record {
      trace = points l.arena.nodes l.debug.root.0;
      stops_on_entry = l.stops_on_entry;
      is_started = l.is_started;
      stop = stop_at l.is_stopped l.debug.place;
    } };

    ghost invariant = { λ l. IsSound l.arena.nodes l.debug l.is_started l.is_stopped };
}

impl Launch {
    /// A launch of a trace, which has not begun.
    pub(crate) fn of(launched: Launched, stops_on_entry: bool) -> Launch
        ensures { result ≡ launch_of stops_on_entry launched }
    {
        let Launched { arena, debug } = launched;
        Launch {
            arena,
            debug,
            stops_on_entry,
            is_started: false,
            is_stopped: false,
        }
    }

    /// Whether configurationDone came.
    pub(crate) fn is_started(&self) -> bool
        ensures { result ≡ self.now.is_started }
    {
        self.is_started
    }

    /// Whether the program is stopped.
    pub(crate) fn is_stopped(&self) -> bool
        ensures { result ≡ is_some self.now.stop }
    {
        self.is_stopped
    }

    /// The program begins, and comes to its first stop. Answers why it stops there, if it does.
    pub(crate) fn start(
        &mut self,
        alloc: Global,
        store: &DocumentStore,
        breakpoints: &[PathLines],
    ) -> Result<Option<StopReason>, OutOfMemory>
        requires fresh { self.old.is_started ≡ false }
        ensures reason { IfOk result (λ reason. reason ≡ option_map (λ (h : Halt). h.reason)
            (first_halt store.now.store.paths breakpoints.now self.old.stops_on_entry self.old.trace)) }
        ensures launch { IfOk result (λ reason. self.new ≡ halted (record self.old { is_started = true })
            (first_halt store.now.store.paths breakpoints.now self.old.stops_on_entry self.old.trace)) }
    {
        let reason = begin(
            alloc,
            store,
            breakpoints,
            &self.arena,
            &mut self.debug,
            self.stops_on_entry,
        )?;
        self.is_started = true;
        self.is_stopped = reason.is_some();
        Ok(reason)
    }

    /// The program takes a step from where it is stopped. Answers why it stops behind it, if it does.
    pub(crate) fn step(
        &mut self,
        alloc: Global,
        store: &DocumentStore,
        breakpoints: &[PathLines],
        rule: StepRule,
    ) -> Result<Option<StopReason>, OutOfMemory>
        requires stopped { IsSome self.old.stop }
        ensures reason { IfOk result (λ reason. ForSome self.old.stop (λ index. reason
            ≡ option_map (λ (h : Halt). h.reason) (next_halt store.now.store.paths breakpoints.now rule self.old.trace index))) }
        ensures launch { IfOk result (λ reason. ForSome self.old.stop (λ index. self.new
            ≡ halted self.old (next_halt store.now.store.paths breakpoints.now rule self.old.trace index))) }
    {
        let reason = go(
            alloc,
            store,
            breakpoints,
            &self.arena,
            &mut self.debug,
            rule,
        )?;
        self.is_stopped = reason.is_some();
        Ok(reason)
    }

    /// The frames of the point where the program is stopped, outermost first.
    pub(crate) fn stack(&self, alloc: Global) -> Result<Frames, OutOfMemory>
        requires stopped { IsSome self.now.stop }
        ensures { IfOk result (λ frames. ForSome self.now.stop (λ index. reverse frames ≡ stack_at self.now.trace index)) }
    {
        self.debug.stack(alloc, &self.arena)
    }

    /// The global variables of a frame of that point, or the local ones; none where it has no such frame.
    #[tactic(auto, unfolding(crate::specs::Shown::rows_of))]
    pub(crate) fn variables(
        &self,
        alloc: Global,
        frame: u32,
        globals: bool,
    ) -> Result<Variables, OutOfMemory>
        requires stopped { IsSome self.now.stop }
        ensures { IfOk result (λ rows. ForSome self.now.stop (λ index. rows ≡ rows_of self.now.trace index frame globals)) }
    {
        let frames = self.debug.stack(alloc, &self.arena)?;
        if !is_frame(frames.as_slice().len(), frame) {
            return Ok(Variables::new(alloc));
        }
        self.debug.variables(alloc, &self.arena, frame, globals)
    }
}
