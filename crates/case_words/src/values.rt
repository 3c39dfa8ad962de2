//! Values, notes and keys in letters.
use hl_base::{Key, Note, Notes, OutOfMemory, SetValue, Severity};
use std::alloc::{AllocError, Global};

/// The most bytes of a text that are written down.
const LONGEST_TEXT: usize = 20;

/// A value: a text in apostrophes, or how many bytes a long one has.
pub fn value(alloc: Global, value: &SetValue) -> Result<String, AllocError> {
    match value {
        SetValue::A(number) => format!(in alloc; "{number}"),
        SetValue::B(bit) => format!(in alloc; "{bit}"),
        SetValue::C(text) if text.as_str().len() > LONGEST_TEXT => {
            format!(in alloc; "{} bytes", text.as_str().len())
        }
        SetValue::C(text) => format!(in alloc; "'{}'", text.as_str()),
    }
}

/// What is asked.
pub fn key(alloc: Global, key: &Key) -> Result<String, AllocError> {
    match key {
        Key::Global(_, name, element) => format!(in alloc; "asks Global {} {element}", name.text()),
        Key::Op(name) => format!(in alloc; "asks Op {}", name.text()),
        Key::Member(name) => format!(in alloc; "asks Member {}", name.text()),
        Key::Sym(name) => format!(in alloc; "asks Sym {}", name.text()),
        Key::Look(name) => format!(in alloc; "asks Look {}", name.text()),
        Key::Sect => String::from_str(alloc, "asks Sect"),
        Key::Nest => String::from_str(alloc, "asks Nest"),
        Key::Parm => String::from_str(alloc, "asks Parm"),
        Key::Counter => String::from_str(alloc, "asks Counter"),
    }
}

/// The letter of a severity.
fn severity(severity: Severity) -> &'static str {
    match severity {
        Severity::Error => "E",
        Severity::Warning => "W",
        Severity::Information => "I",
    }
}

/// A note: its code, and the place of `H010`, the severity and text of an MNOTE, and the text of `H040` and `H041`.
fn note(alloc: Global, note: &Note) -> Result<String, AllocError> {
    let text = note.text.as_str();
    match note.code {
        0 => format!(in alloc; " {}:{text}", severity(note.severity)),
        10 => {
            let place = text.strip_prefix("the operand cannot be read at character ");
            format!(in alloc; " 10@{}", place.unwrap_or(text))
        }
        40 | 41 => format!(in alloc; " {} {text}", note.code),
        code => format!(in alloc; " {code}"),
    }
}

/// A line with notes behind it.
pub fn noted(alloc: Global, front: String, notes: &Notes) -> Result<String, OutOfMemory> {
    let mut line = front;
    for one in notes.as_slice() {
        line.push_str(note(alloc, one)?.as_str())?;
    }
    Ok(line)
}

/// Notes with their texts, a semicolon behind each.
pub fn in_full(alloc: Global, notes: &Notes) -> Result<String, OutOfMemory> {
    let mut line = String::new(alloc);
    for note in notes.as_slice() {
        let said = format!(in alloc; "{} {};", note.code, note.text.as_str())?;
        line.push_str(said.as_str())?;
    }
    Ok(line)
}
