//! What statements of conditional assembly do.
use case_words::{Surroundings, key, noted, value};
use cond_expr::Stop;
use conditional_asm::{Act, Task, doing, effect, read_body};
use hl_base::{Declaration, Line, Name, Notes, OutOfMemory, SetKind, SetValue, Text};
use hlasm_statements::read_statements;
use std::alloc::{AllocError, Global};

/// The letter of a type.
fn kind(kind: SetKind) -> &'static str {
    match kind {
        SetKind::A => "A",
        SetKind::B => "B",
        SetKind::C => "C",
    }
}

/// What a declaration is, with `g` before a global, and parentheses behind an array.
fn declaration(alloc: Global, d: &Declaration) -> Result<String, AllocError> {
    let reach = if d.global { "g" } else { "l" };
    let array = if d.array { "()" } else { "" };
    format!(in alloc; " {reach}{} {}{array}", kind(d.kind), d.name.text())
}

/// Declarations in order.
fn declarations(alloc: Global, list: &[Declaration]) -> Result<String, AllocError> {
    let mut line = String::from_str(alloc, "declare")?;
    for d in list {
        line.push_str(declaration(alloc, d)?.as_str())?;
    }
    Ok(line)
}

/// A SET symbol or its element, and what it is set to.
fn setting(
    alloc: Global,
    name: &Name,
    element: Option<u32>,
    given: &SetValue,
) -> Result<String, AllocError> {
    let given = value(alloc, given)?;
    match element {
        Some(element) => format!(in alloc; "set {}({element}) {given}", name.text()),
        None => format!(in alloc; "set {} {given}", name.text()),
    }
}

/// A generated line.
fn generated(alloc: Global, line: &Line) -> Result<String, AllocError> {
    let (label, op, operands) = (&line.label, &line.op, &line.operands);
    format!(in alloc; "{}|{}|{}", label.as_str(), op.as_str(), operands.as_str())
}

/// What an act is.
fn act(alloc: Global, act: &Act) -> Result<String, AllocError> {
    match act {
        Act::Next => String::from_str(alloc, "next"),
        Act::Ask(asked) => key(alloc, asked),
        Act::Branch(label) => format!(in alloc; "branch {}", label.text()),
        Act::Actr(count) => format!(in alloc; "actr {count}"),
        Act::Set(name, element, given) => setting(alloc, name, *element, given),
        Act::Declare(list) => declarations(alloc, list.as_slice()),
        Act::Define => String::from_str(alloc, "define"),
        Act::Call(name) => format!(in alloc; "call {}", name.text()),
        Act::Copy(name) => format!(in alloc; "copy {}", name.text()),
        Act::Generate(line) => generated(alloc, line),
        Act::Leave(name) => format!(in alloc; "leave {}", name.text()),
        Act::End(None) => String::from_str(alloc, "end"),
        Act::End(Some(line)) => {
            let line = generated(alloc, line)?;
            format!(in alloc; "end {}", line.as_str())
        }
    }
}

/// The effect of the first statement of a text.
pub fn first_effect(
    alloc: Global,
    text: &str,
    among: &Surroundings,
) -> Result<String, OutOfMemory> {
    let statements = read_statements(alloc, text)?;
    match statements.as_slice() {
        [one, ..] => {
            let done = effect(alloc, one, among)?;
            noted(alloc, act(alloc, &done.act)?, &done.notes)
        }
        [] => Ok(String::from_str(alloc, "no statement")?),
    }
}

/// What a statement with this operation does; any other than those below is generated.
fn task(operation: &str) -> Task {
    match operation {
        "SETA" => Task::Assign(SetKind::A),
        "SETB" => Task::Assign(SetKind::B),
        "SETC" => Task::Assign(SetKind::C),
        "AGO" => Task::Ago,
        "AIF" => Task::Aif,
        "ACTR" => Task::Actr,
        "END" => Task::End,
        "MACRO" => Task::Define,
        "MEND" | "MEXIT" => Task::Leave,
        "COPY" => Task::Copy,
        _ => Task::Generate,
    }
}

/// What an operation of this name does with these fields.
fn stopped(
    alloc: Global,
    among: &Surroundings,
    name: &Name,
    label: &str,
    field: &str,
    notes: &mut Notes,
) -> Result<Act, Stop> {
    let body = read_body(alloc, task(name.text()), label, field)?;
    let op = Text::of(alloc, name.text())?;
    doing(alloc, &body, name, &op, among, notes)
}

/// What an operation does with these fields, and its notes, or what it asks.
pub fn done(
    alloc: Global,
    among: &Surroundings,
    operation: &str,
    label: &str,
    field: &str,
) -> Result<String, OutOfMemory> {
    let Some(name) = Name::read(operation) else {
        return Ok(String::from_str(alloc, "no operation")?);
    };
    let mut notes = Notes::new(alloc);
    match stopped(alloc, among, &name, label, field, &mut notes) {
        Ok(done) => noted(alloc, act(alloc, &done)?, &notes),
        Err(Stop::Asked(asked)) => Ok(key(alloc, &asked)?),
        Err(Stop::OutOfMemory) => Err(OutOfMemory),
    }
}
