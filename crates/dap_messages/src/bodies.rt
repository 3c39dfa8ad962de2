//! What responses and events carry. None of it has a number with a fraction.
ghost use Rattle.std.specs.Prelude.{◌≡◌, [], ◌∷◌, false, codes, IfOk, map};
ghost use Rattle.std.specs.List.{enumerate_from};
ghost use Rattle.serde_json.specs.Data.{array, object, member, no_members};
ghost use Rattle.serde_json.specs.View.{view, items_of};
ghost use Rattle.serde_json.specs.Written.{has_float};
ghost use Rattle.dap_messages.specs.Written.{capabilities_value, breakpoint_value, breakpoints_value, thread_value, threads_value, source_value, frame_value, counted_value, stack_value, scope_value, scopes_value, variable_value, variables_value, continued_value, reason_of, stopped_value};

use crate::members::{
    no_members, object, with_count, with_flag, with_item, with_long, with_made, with_number,
    with_text, with_value, with_word,
};
use hl_base::{OutOfMemory, Text};
use serde_json::Value;
use std::alloc::Global;

/// A frame of the stack as a client shows it (Debug Adapter Protocol, `StackFrame`); lines count from 1.
#[derive(Debug, Drop)]
pub struct StackFrame {
    pub name: Text,
    pub path: Text,
    pub line: u32,
}

/// A variable as a client shows it (Debug Adapter Protocol, `Variable`).
#[derive(Debug, Drop)]
pub struct Variable {
    pub name: Text,
    pub value: Text,
}

/// Why a program stopped (Debug Adapter Protocol, `StoppedEvent`).
#[derive(Clone, Copy, Debug, PartialEq, Eq)]
pub enum StopReason {
    Entry,
    Breakpoint,
    Step,
}

/// What `initialize` is answered: what the debugger can do.
pub fn capabilities_body(alloc: Global) -> Result<Value, OutOfMemory>
    ensures body { IfOk result (λ v. view v ≡ capabilities_value) }
    ensures whole { IfOk result (λ v. has_float (view v) ≡ false) }
{
    let name = "supportsConfigurationDoneRequest";
    object(with_flag(alloc, no_members(alloc), name, true))
}

/// What `setBreakpoints` is answered: each line, taken as it is.
pub fn breakpoints_body(alloc: Global, lines: &[u32]) -> Result<Value, OutOfMemory>
    ensures body { IfOk result (λ v. view v ≡ breakpoints_value lines.now) }
    ensures whole { IfOk result (λ v. has_float (view v) ≡ false) }
{
    let list = breakpoints_json(alloc, lines)?;
    named(alloc, "breakpoints", list)
}

/// An object of one member.
fn named(alloc: Global, name: &str, list: Value) -> Result<Value, OutOfMemory>
    ensures { IfOk result (λ v. view v ≡ object (member name.now (view list) no_members)) }
{
    object(with_value(alloc, no_members(alloc), name, list))
}

fn breakpoints_json(alloc: Global, lines: &[u32]) -> Result<Value, OutOfMemory>
    ensures { IfOk result (λ v. view v ≡ array (items_of (map breakpoint_value lines.now))) }
{
    let mut values = Vec::with_capacity(alloc, lines.len())?;
    for line in lines {
        values = with_item(values, breakpoint_json(alloc, *line))?;
    }
    Ok(Value::Array(values))
}

fn breakpoint_json(alloc: Global, line: u32) -> Result<Value, OutOfMemory>
    ensures { IfOk result (λ v. view v ≡ breakpoint_value line) }
{
    let made = with_number(alloc, no_members(alloc), "line", line);
    object(with_flag(alloc, made, "verified", true))
}

/// What `threads` is answered: the one thread.
pub fn threads_body(alloc: Global) -> Result<Value, OutOfMemory>
    ensures body { IfOk result (λ v. view v ≡ threads_value) }
    ensures whole { IfOk result (λ v. has_float (view v) ≡ false) }
{
    let list = threads_json(alloc)?;
    named(alloc, "threads", list)
}

/// The list of the one thread.
fn threads_json(alloc: Global) -> Result<Value, OutOfMemory>
    ensures { IfOk result (λ v. view v ≡ array (items_of (thread_value ∷ []))) }
{
    let list = with_item(Vec::new(alloc), thread_json(alloc))?;
    Ok(Value::Array(list))
}

/// The one thread.
fn thread_json(alloc: Global) -> Result<Value, OutOfMemory>
    ensures { IfOk result (λ v. view v ≡ thread_value) }
{
    let made = with_number(alloc, no_members(alloc), "id", 1);
    object(with_word(alloc, made, "name", "assembly"))
}

/// What `stackTrace` is answered: the frames, innermost first, numbered from 1.
pub fn stack_body(alloc: Global, frames: &[StackFrame]) -> Result<Value, OutOfMemory>
    ensures body { IfOk result (λ v. view v ≡ stack_value frames.now) }
    ensures whole { IfOk result (λ v. has_float (view v) ≡ false) }
{
    let list = frames_json(alloc, frames)?;
    counted(alloc, list, frames.len())
}

/// Frames, and how many they are.
fn counted(alloc: Global, list: Value, count: usize) -> Result<Value, OutOfMemory>
    ensures { IfOk result (λ v. view v ≡ counted_value (view list) count) }
{
    let made = with_value(alloc, no_members(alloc), "stackFrames", list);
    object(with_count(alloc, made, "totalFrames", count))
}

fn frames_json(alloc: Global, frames: &[StackFrame]) -> Result<Value, OutOfMemory>
    ensures { IfOk result (λ v. view v
        ≡ array (items_of (map frame_value (enumerate_from 1 frames.now)))) }
{
    let mut values = Vec::with_capacity(alloc, frames.len())?;
    for (index, frame) in frames.iter().enumerate() {
        values = with_item(values, frame_json(alloc, index + 1, frame))?;
    }
    Ok(Value::Array(values))
}

/// A frame of a number.
fn frame_json(alloc: Global, number: usize, frame: &StackFrame) -> Result<Value, OutOfMemory>
    ensures { IfOk result (λ v. view v ≡ frame_value (number, frame.now)) }
{
    let made = with_number(alloc, no_members(alloc), "column", 1);
    let made = with_count(alloc, made, "id", number);
    let made = with_number(alloc, made, "line", frame.line);
    let made = with_text(alloc, made, "name", &frame.name);
    object(with_made(alloc, made, "source", source_json(alloc, &frame.path)))
}

fn source_json(alloc: Global, path: &Text) -> Result<Value, OutOfMemory>
    ensures { IfOk result (λ v. view v ≡ source_value path.now) }
{
    object(with_text(alloc, no_members(alloc), "path", path))
}

/// What `scopes` is answered: the locals and the globals of the frame of a number; frames are numbered from 1.
pub fn scopes_body(alloc: Global, frame: u32) -> Result<Value, OutOfMemory>
    ensures body { IfOk result (λ v. view v ≡ scopes_value frame) }
    ensures whole { IfOk result (λ v. has_float (view v) ≡ false) }
{
    let globals = 2 * u64::from(frame);
    let list = scopes_json(alloc, globals.saturating_sub(1), globals)?;
    named(alloc, "scopes", list)
}

/// The scopes whose variables are under these references.
fn scopes_json(alloc: Global, locals: u64, globals: u64) -> Result<Value, OutOfMemory>
    ensures { IfOk result (λ v. view v ≡ array (items_of
        (scope_value (codes "Locals") locals ∷ scope_value (codes "Globals") globals ∷ []))) }
{
    let list = with_item(Vec::new(alloc), scope_json(alloc, "Locals", locals))?;
    let list = with_item(list, scope_json(alloc, "Globals", globals))?;
    Ok(Value::Array(list))
}

fn scope_json(alloc: Global, name: &str, reference: u64) -> Result<Value, OutOfMemory>
    ensures { IfOk result (λ v. view v ≡ scope_value name.now reference) }
{
    let made = with_flag(alloc, no_members(alloc), "expensive", false);
    let made = with_word(alloc, made, "name", name);
    object(with_long(alloc, made, "variablesReference", reference))
}

/// What `variables` is answered.
pub fn variables_body(alloc: Global, variables: &[Variable]) -> Result<Value, OutOfMemory>
    ensures body { IfOk result (λ v. view v ≡ variables_value variables.now) }
    ensures whole { IfOk result (λ v. has_float (view v) ≡ false) }
{
    let list = variables_json(alloc, variables)?;
    named(alloc, "variables", list)
}

fn variables_json(alloc: Global, variables: &[Variable]) -> Result<Value, OutOfMemory>
    ensures { IfOk result (λ v. view v ≡ array (items_of (map variable_value variables.now))) }
{
    let mut values = Vec::with_capacity(alloc, variables.len())?;
    for variable in variables {
        values = with_item(values, variable_json(alloc, variable))?;
    }
    Ok(Value::Array(values))
}

fn variable_json(alloc: Global, variable: &Variable) -> Result<Value, OutOfMemory>
    ensures { IfOk result (λ v. view v ≡ variable_value variable.now) }
{
    let made = with_text(alloc, no_members(alloc), "name", &variable.name);
    let made = with_text(alloc, made, "value", &variable.value);
    object(with_number(alloc, made, "variablesReference", 0))
}

/// What `continue` is answered: the one thread goes on.
pub fn continued_body(alloc: Global) -> Result<Value, OutOfMemory>
    ensures body { IfOk result (λ v. view v ≡ continued_value) }
    ensures whole { IfOk result (λ v. has_float (view v) ≡ false) }
{
    object(with_flag(alloc, no_members(alloc), "allThreadsContinued", true))
}

impl StopReason {
    /// The protocol's word.
    fn word(self) -> &'static str
        ensures { result.now ≡ reason_of self }
    {
        match self {
            StopReason::Entry => "entry",
            StopReason::Breakpoint => "breakpoint",
            StopReason::Step => "step",
        }
    }
}

/// What the event `stopped` tells.
pub fn stopped_body(alloc: Global, reason: StopReason) -> Result<Value, OutOfMemory>
    ensures body { IfOk result (λ v. view v ≡ stopped_value reason) }
    ensures whole { IfOk result (λ v. has_float (view v) ≡ false) }
{
    let made = with_word(alloc, no_members(alloc), "reason", reason.word());
    object(with_number(alloc, made, "threadId", 1))
}
