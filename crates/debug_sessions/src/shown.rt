//! What is shown of the point where a program is stopped.
ghost use Rattle.std.specs.Prelude.{◌≡◌, ℕ, List, [], false, map, option_map, reverse, chars, slice_get, unwrap_or, IfOk};
ghost use Rattle.std.specs.Borrow.{Bor};
ghost use Rattle.serde_json.specs.View.{view};
ghost use Rattle.serde_json.specs.Written.{has_float};
ghost use Rattle.dap_messages.specs.Written.{stack_value, variables_value};
ghost use Rattle.debug_sessions.specs.Shown.{name_of, shown_frame, shown_variable};

use dap_messages::{StackFrame, Variable, stack_body, variables_body};
use document_store::DocumentStore;
use hl_base::{Frame, FrameKind, OutOfMemory, PathId, Text};
use serde_json::Value;
use std::alloc::Global;
use trace_values::Variable as Kept;

/// The name of what a frame runs.
fn name_of(frame: &Frame) -> &str
    ensures { result.now ≡ name_of frame.now.kind frame.now.name }
{
    match frame.kind {
        FrameKind::OpenCode => "OPEN CODE",
        FrameKind::Macro => own_name(frame),
        FrameKind::Copy => own_name(frame),
    }
}

/// The name of the macro or the member of a frame.
fn own_name(frame: &Frame) -> &str
    ensures { result.now ≡ unwrap_or frame.now.name [] }
{
    match &frame.name {
        Some(name) => name.text(),
        None => "",
    }
}

/// The path of a number, where that was given.
fn path_text(store: &DocumentStore, path: PathId) -> Option<&str>
    ensures { option_map (λ (text : Bor (List ℕ)). chars text.now) result ≡ slice_get store.now.store.paths path.0 }
{
    if (path.0 as usize) < store.path_count() {
        Some(store.path_text(path))
    } else {
        None
    }
}

/// The text of the path of a number, or an empty one where there is none.
fn path_of(alloc: Global, store: &DocumentStore, path: PathId) -> Result<Text, OutOfMemory>
    ensures { IfOk result (λ text. text ≡ unwrap_or (slice_get store.now.store.paths path.0) []) }
{
    match path_text(store, path) {
        Some(text) => Text::of(alloc, text),
        None => Ok(Text::new(alloc)),
    }
}

/// A frame as it is shown.
fn shown_frame(
    alloc: Global,
    store: &DocumentStore,
    frame: &Frame,
) -> Result<StackFrame, OutOfMemory>
    ensures { IfOk result (λ shown. shown ≡ shown_frame store.now.store.paths frame.now) }
{
    Ok(StackFrame {
        name: Text::of(alloc, name_of(frame))?,
        path: path_of(alloc, store, frame.origin.path)?,
        line: frame.origin.line.saturating_add(1),
    })
}

/// What `stackTrace` is answered of these frames, which stand outermost first.
pub(crate) fn stack_told(
    alloc: Global,
    store: &DocumentStore,
    frames: &[Frame],
) -> Result<Value, OutOfMemory>
    ensures body { IfOk result (λ v. view v ≡ stack_value (map (shown_frame store.now.store.paths) (reverse frames.now))) }
    ensures whole { IfOk result (λ v. has_float (view v) ≡ false) }
{
    let mut shown = Vec::with_capacity(alloc, frames.len())?;
    for frame in frames {
        shown.push(shown_frame(alloc, store, frame)?)?;
    }
    shown.reverse();
    stack_body(alloc, shown.as_slice())
}

/// A variable as it is shown.
fn shown_variable(alloc: Global, variable: &Kept) -> Result<Variable, OutOfMemory>
    ensures { IfOk result (λ shown. shown ≡ shown_variable variable.now) }
{
    Ok(Variable {
        name: variable.name.copy(alloc)?,
        value: variable.value.copy(alloc)?,
    })
}

/// What `variables` is answered of these.
pub(crate) fn variables_told(alloc: Global, variables: &[Kept]) -> Result<Value, OutOfMemory>
    ensures body { IfOk result (λ v. view v ≡ variables_value (map shown_variable variables.now)) }
    ensures whole { IfOk result (λ v. has_float (view v) ≡ false) }
{
    let mut shown = Vec::with_capacity(alloc, variables.len())?;
    for variable in variables {
        shown.push(shown_variable(alloc, variable)?)?;
    }
    variables_body(alloc, shown.as_slice())
}
