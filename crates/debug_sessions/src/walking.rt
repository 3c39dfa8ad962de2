//! A walk through a trace, as a session makes it.
ghost use Rattle.std.specs.Prelude.{◌≡◌, None, IfOk, OnErr, option_map};
ghost use Rattle.macro_debugger.specs.Walks.{HasTrace, trace_of, place_after};
ghost use Rattle.debug_sessions.specs.Stops.{halt_of, reason_told, entry, stop_behind, first_halt, Halt};

use crate::breakpoints::PathLines;
use crate::numbering::set_breakpoints;
use dap_messages::StopReason;
use document_store::DocumentStore;
use hl_base::OutOfMemory;
use macro_debugger::{Debug, Reason, StepRule, Stop};
use std::alloc::Global;
use trace_arena::TraceArena;
use trace_values::TraceItem;

/// The reason of a stop as it is told.
fn reason_told(reason: Reason) -> StopReason
    ensures { result ≡ reason_told reason }
{
    match reason {
        Reason::Breakpoint => StopReason::Breakpoint,
        Reason::Step => StopReason::Step,
    }
}

/// Why the program stops at a stop, if there is one.
fn told(stop: Option<Stop>) -> Option<StopReason>
    ensures { result ≡ option_map (λ (h : Halt). h.reason) (option_map halt_of stop) }
{
    match stop {
        Some(stop) => Some(reason_told(stop.reason)),
        None => None,
    }
}

/// Goes from before the first point to the first one, if there is one, which is an entry.
fn enter(arena: &TraceArena<TraceItem>, debug: &mut Debug) -> Option<StopReason>
    requires trace { HasTrace arena.now.nodes debug.old }
    requires fresh { debug.old.place ≡ None }
    ensures trace { HasTrace arena.now.nodes debug.new }
    ensures root { debug.new.root ≡ debug.old.root }
    ensures reason { result ≡ option_map (λ (h : Halt). h.reason) (entry (trace_of arena.now.nodes debug.old)) }
    ensures place { debug.new.place ≡ option_map (λ (h : Halt). h.index) (entry (trace_of arena.now.nodes debug.old)) }
{
    match debug.next_stop(arena, StepRule::In) {
        Some(_) => Some(StopReason::Entry),
        None => None,
    }
}

/// Goes to the next stop, and answers why it is one. If there is none, the walk stays where it is.
pub(crate) fn go(
    alloc: Global,
    store: &DocumentStore,
    breakpoints: &[PathLines],
    arena: &TraceArena<TraceItem>,
    debug: &mut Debug,
    rule: StepRule,
) -> Result<Option<StopReason>, OutOfMemory>
    requires trace { HasTrace arena.now.nodes debug.old }
    ensures trace { HasTrace arena.now.nodes debug.new }
    ensures root { debug.new.root ≡ debug.old.root }
    ensures reason { IfOk result (λ reason. reason ≡ option_map (λ (h : Halt). h.reason)
        (option_map halt_of (stop_behind store.now.store.paths breakpoints.now rule debug.old.place (trace_of arena.now.nodes debug.old)))) }
    ensures place { IfOk result (λ reason. debug.new.place ≡ place_after debug.old.place
        (stop_behind store.now.store.paths breakpoints.now rule debug.old.place (trace_of arena.now.nodes debug.old))) }
    ensures refused { OnErr result (debug.new.place ≡ debug.old.place) }
{
    set_breakpoints(alloc, store, debug, breakpoints)?;
    let stop = debug.next_stop(arena, rule);
    Ok(told(stop))
}

/// Goes from before the first point to the first stop, which is the first point if that is wanted, and answers why it is one.
pub(crate) fn begin(
    alloc: Global,
    store: &DocumentStore,
    breakpoints: &[PathLines],
    arena: &TraceArena<TraceItem>,
    debug: &mut Debug,
    stops_on_entry: bool,
) -> Result<Option<StopReason>, OutOfMemory>
    requires trace { HasTrace arena.now.nodes debug.old }
    requires fresh { debug.old.place ≡ None }
    ensures trace { HasTrace arena.now.nodes debug.new }
    ensures root { debug.new.root ≡ debug.old.root }
    ensures reason { IfOk result (λ reason. reason ≡ option_map (λ (h : Halt). h.reason)
        (first_halt store.now.store.paths breakpoints.now stops_on_entry (trace_of arena.now.nodes debug.old))) }
    ensures place { IfOk result (λ reason. debug.new.place ≡ option_map (λ (h : Halt). h.index)
        (first_halt store.now.store.paths breakpoints.now stops_on_entry (trace_of arena.now.nodes debug.old))) }
    ensures refused { OnErr result (debug.new.place ≡ None) }
{
    if stops_on_entry {
        return Ok(enter(arena, debug));
    }
    go(alloc, store, breakpoints, arena, debug, StepRule::Continue)
}
