//! Calls of a table of SET symbols, and what each answers.
use hl_base::{Name, OutOfMemory, SetKind, SetValue, Text};
use set_symbols::{SetFault, SetTable};
use std::alloc::{AllocError, Global};

/// What stands before the first blank, and what stands behind it.
fn cut(words: &str) -> (&str, &str) {
    words.split_once(' ').unwrap_or((words, ""))
}

/// The type of a letter.
fn kind(letter: &str) -> SetKind {
    match letter {
        "A" => SetKind::A,
        "B" => SetKind::B,
        _ => SetKind::C,
    }
}

/// The letter of a type.
fn letter(kind: SetKind) -> &'static str {
    match kind {
        SetKind::A => "A",
        SetKind::B => "B",
        SetKind::C => "C",
    }
}

/// `A NUMBER`, `B BIT` or `C TEXT`.
fn value(alloc: Global, words: &str) -> Result<SetValue, OutOfMemory> {
    let (letter, word) = cut(words);
    match kind(letter) {
        SetKind::A => Ok(SetValue::A(word.parse::<i32>().unwrap_or(0))),
        SetKind::B => Ok(SetValue::B(word == "1")),
        SetKind::C => Ok(SetValue::C(Text::of(alloc, word)?)),
    }
}

/// A value in the same words, a text in apostrophes.
fn value_worded(alloc: Global, value: &SetValue) -> Result<String, AllocError> {
    match value {
        SetValue::A(number) => format!(in alloc; "A {number}"),
        SetValue::B(bit) => format!(in alloc; "B {}", u8::from(*bit)),
        SetValue::C(text) => format!(in alloc; "C '{}'", text.as_str()),
    }
}

/// `done`, or why it is not.
fn done(alloc: Global, answer: Result<(), SetFault>) -> Result<String, AllocError> {
    match answer {
        Ok(()) => String::from_str(alloc, "done"),
        Err(fault) => format!(in alloc; "{fault}"),
    }
}

/// `LETTER SCOPE`, the scope `local` or `global`.
fn declare(
    alloc: Global,
    table: &mut SetTable,
    name: &Name,
    words: &str,
) -> Result<String, AllocError> {
    let (letter, scope) = cut(words);
    let answer = table.declare(alloc, name, kind(letter), scope == "global");
    done(alloc, answer)
}

/// An element, or a hyphen, and a value.
fn set(
    alloc: Global,
    table: &mut SetTable,
    name: &Name,
    words: &str,
) -> Result<String, OutOfMemory> {
    let (element, words) = cut(words);
    let value = value(alloc, words)?;
    let answer = table.set(alloc, name, element.parse::<u32>().ok(), value);
    Ok(done(alloc, answer)?)
}

/// What an element holds, or the symbol itself where its word is a hyphen.
fn get(alloc: Global, table: &SetTable, name: &Name, word: &str) -> Result<String, AllocError> {
    match table.get(alloc, name, word.parse::<u32>().ok()) {
        Ok(value) => value_worded(alloc, &value),
        Err(fault) => format!(in alloc; "{fault}"),
    }
}

/// How a symbol was declared.
fn declared(alloc: Global, table: &SetTable, name: &Name) -> Result<String, AllocError> {
    let Some(declared) = table.declared(name) else {
        return String::from_str(alloc, "not declared");
    };
    let scope = if declared.global { "global" } else { "local" };
    format!(in alloc; "{} {scope}", letter(declared.kind))
}

/// What a call answers: `declare NAME LETTER SCOPE`, `set NAME ELEMENT VALUE`, `get NAME ELEMENT` or `declared NAME`.
fn answer(alloc: Global, table: &mut SetTable, call: &str) -> Result<String, OutOfMemory> {
    let (act, words) = cut(call);
    let (word, words) = cut(words);
    let Some(name) = Name::read(word) else {
        return Ok(String::from_str(alloc, "no name")?);
    };
    match act {
        "declare" => Ok(declare(alloc, table, &name, words)?),
        "set" => set(alloc, table, &name, words),
        "get" => Ok(get(alloc, table, &name, words)?),
        _ => Ok(declared(alloc, table, &name)?),
    }
}

/// What the calls answer in turn, with semicolons between them.
pub fn answers(alloc: Global, calls: &[String]) -> Result<String, OutOfMemory> {
    let mut table = SetTable::new(alloc);
    let mut answers = String::new(alloc);
    for call in calls {
        if !answers.is_empty() {
            answers.push_str("; ")?;
        }
        answers.push_str(answer(alloc, &mut table, call.as_str())?.as_str())?;
    }
    Ok(answers)
}
