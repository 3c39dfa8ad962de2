//! Calls by their levels.
ghost use Rattle.std.specs.Prelude.{◌≡◌, ◌≤◌, [], ◌∷◌, ◌++◌, take, length, List, Option, Some, IfOk, OnOk};
ghost use Rattle.std.specs.Option.{option_copied};
ghost use Rattle.running_calls.specs.declared.calls.RunningCall.{RunningCall};
ghost use Rattle.running_calls.specs.Calls as calls;

use hl_base::{Origin, OutOfMemory};
use std::alloc::Global;
use std::marker::Model;
use trace_values::TraceItem;
use variable_meanings::CallVariables;

/// A call that is running: what variable symbols mean in it, and where the statement stands at which it is.
#[derive(Drop)]
pub struct RunningCall {
    pub variables: CallVariables,
    pub at: Origin,
}

/// The calls that are running, by their levels: the outermost first. Contracts see the list; none is there of a level that no
/// point was met of.
#[derive(Drop)]
pub struct RunningCalls {
    calls: Vec<Option<RunningCall>>,
}

impl Model for RunningCalls {
    ghost use Rattle.std.specs.Prelude.{List, Option};
    ghost use Rattle.running_calls.specs.declared.calls.RunningCall.{RunningCall};

    ghost Value = { List (Option RunningCall) };

    ghost view = { λ s. s.calls.items };
}

/// What variable symbols mean in a call that is running, or in one that is entered at a point.
fn variables_or(
    alloc: Global,
    held: Option<RunningCall>,
    item: &TraceItem,
) -> Result<CallVariables, OutOfMemory>
    ensures { IfOk result (λ call. call ≡ calls.variables_or held item.now) }
{
    match held {
        Some(call) => Ok(call.variables),
        None => CallVariables::entered(alloc, item.definition, item.entry.as_slice()),
    }
}

/// A call behind a statement of it, if it is running.
fn passed(
    alloc: Global,
    held: Option<RunningCall>,
    item: &TraceItem,
) -> Result<Option<RunningCall>, OutOfMemory>
    ensures { IfOk result (λ passed. passed ≡ calls.behind_some held item.now) }
{
    match held {
        Some(call) => {
            let mut variables = call.variables;
            variables.pass(alloc, item)?;
            let at = item.frames.origin();
            Ok(Some(RunningCall { variables, at }))
        }
        None => Ok(None),
    }
}

/// Takes the call of a level away, if one is running, and with it those within it. The levels outside it stay.
fn take_at(levels: &mut Vec<Option<RunningCall>>, level: u32) -> Option<RunningCall>
    ensures taken { result ≡ calls.held levels.old.items level }
    ensures outside { levels.new.items ≡ take level levels.old.items }
{
    let level = level as usize;
    levels.truncate(level + 1);
    if levels.len() <= level {
        return None;
    }
    match levels.pop() {
        Some(held) => held,
        None => None,
    }
}

/// No call for each level up to this one that has none.
fn pad(levels: &mut Vec<Option<RunningCall>>, level: u32) -> Result<(), OutOfMemory>
    ensures { OnOk result (levels.new.items ≡ calls.padded level levels.old.items) }
{
    for _ in levels.len()..level as usize {
        levels.push(None)?;
    }
    Ok(())
}

impl RunningCalls {
    /// No call. It takes no memory.
    pub fn new(alloc: Global) -> RunningCalls
        ensures { result ≡ [] }
    {
        RunningCalls {
            calls: Vec::new(alloc),
        }
    }

    /// A point of a level is met: calls within that level have ended, and where none of the level is running one is entered.
    /// What an `Err` leaves is of no use.
    pub fn meet(&mut self, alloc: Global, level: u32, item: &TraceItem) -> Result<(), OutOfMemory>
        ensures { OnOk result (self.new ≡ calls.met self.old level item.now) }
    {
        let held = take_at(&mut self.calls, level);
        pad(&mut self.calls, level)?;
        let variables = variables_or(alloc, held, item)?;
        let at = item.frames.origin();
        self.calls.push(Some(RunningCall { variables, at }))?;
        Ok(())
    }

    /// The call of a level, if one is running.
    pub fn at(&self, level: u32) -> Option<&RunningCall>
        ensures { option_copied result ≡ calls.held self.now level }
    {
        match self.calls.get(level as usize) {
            Some(held) => held.as_ref(),
            None => None,
        }
    }

    /// The statement of the point that was met is processed. What an `Err` leaves is of no use.
    pub fn pass(&mut self, alloc: Global, item: &TraceItem) -> Result<(), OutOfMemory>
        ensures { (outer : List (Option RunningCall)) (call : RunningCall) → self.old ≡ outer ++ Some call ∷ [] →
            OnOk result (self.new ≡ outer ++ Some (calls.behind_item call item.now) ∷ []) }
    {
        match self.calls.pop() {
            Some(held) => {
                let behind = passed(alloc, held, item)?;
                self.calls.push(behind)?;
                Ok(())
            }
            None => Ok(()),
        }
    }
}
