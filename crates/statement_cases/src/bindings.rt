//! Prototypes and what calls mean to them.
use crate::words::{push_word, word};
use hl_base::{Name, Note, OutOfMemory};
use hlasm_statements::read_statements;
use macro_binding::{
    Binding, Bound, Parameter, Parameters, Prototype, Role, Worth, bind, read_prototype,
};
use operand_list::split_operands;
use std::alloc::Global;
use std::rc::Rc;

/// The prototype that the first statement of a text is.
fn prototype(alloc: Global, text: &str) -> Result<Option<Prototype>, OutOfMemory> {
    let statements = read_statements(alloc, text)?;
    match statements.as_slice() {
        [first, ..] => read_prototype(alloc, first),
        [] => Ok(None),
    }
}

/// A parameter: `entry` for that of the name entry, the number of a positional one, or an equals sign and a default.
fn parameter(alloc: Global, parameter: &Parameter) -> Result<String, OutOfMemory> {
    let name = parameter.name;
    match parameter.role {
        Role::NameEntry => Ok(format!(in alloc; "{name} entry")?),
        Role::Positional(place) => Ok(format!(in alloc; "{name} {place}")?),
        Role::Keyword(default) => Ok(format!(in alloc; "{name} ={}", default.as_str())?),
    }
}

/// Adds the parameters of a prototype.
pub fn push_parameters(
    alloc: Global,
    line: &mut String,
    parameters: &Parameters,
) -> Result<(), OutOfMemory> {
    for place in 0..10_000 {
        match parameters.at(place) {
            Some(one) => push_word(line, parameter(alloc, &one)?.as_str())?,
            None => return Ok(()),
        }
    }
    Ok(())
}

/// The operation and the parameters of a prototype, or `none`.
pub fn prototypes(alloc: Global, text: &str) -> Result<String, OutOfMemory> {
    match prototype(alloc, text)? {
        Some(found) => {
            let mut line = word(alloc, found.operation().text())?;
            push_parameters(alloc, &mut line, found.parameters())?;
            Ok(line)
        }
        None => word(alloc, "none"),
    }
}

/// Adds the parameters of a call.
fn push_bounds(alloc: Global, line: &mut String, binding: &Binding) -> Result<(), OutOfMemory> {
    for place in 0..10_000 {
        match binding.at(place) {
            Some(Bound { name, value }) => {
                let bound = format!(in alloc; "{name}={value}")?;
                push_word(line, bound.as_str())?;
            }
            None => return Ok(()),
        }
    }
    Ok(())
}

/// The text of a note with its code.
pub fn noted(alloc: Global, note: &Note) -> Result<String, OutOfMemory> {
    let (code, text) = (note.code, note.text.as_str());
    Ok(format!(in alloc; "H{code}: {text}")?)
}

/// The parameters of a call with their values, how many positional operands it has, and its notes.
pub fn bindings(
    alloc: Global,
    text: &str,
    name_entry: &str,
    operands: &str,
) -> Result<String, OutOfMemory> {
    let Some(prototype) = prototype(alloc, text)? else {
        return word(alloc, "none");
    };
    let prototype = Rc::new(alloc, prototype)?;
    let operands = split_operands(alloc, operands)?;
    let (binding, notes) = bind(alloc, &prototype, name_entry, &operands)?;
    let count = binding.positional_count();
    let mut line = format!(in alloc; "{count}")?;
    push_bounds(alloc, &mut line, &binding)?;
    for note in notes.as_slice() {
        push_word(&mut line, noted(alloc, note)?.as_str())?;
    }
    Ok(line)
}

/// The numbers that words are.
fn subscripts(alloc: Global, words: &str) -> Result<Vec<i32>, OutOfMemory> {
    let mut numbers = Vec::new(alloc);
    for word in words.split(',') {
        numbers.push(word.parse::<i32>().unwrap_or(0))?;
    }
    Ok(numbers)
}

/// What a variable symbol is worth.
fn worth(alloc: Global, worth: Option<Worth>) -> Result<String, OutOfMemory> {
    match worth {
        Some(Worth::Text(text)) => word(alloc, text.as_str()),
        Some(Worth::OutOfRange) => word(alloc, "out of range"),
        None => word(alloc, "no parameter"),
    }
}

/// What a variable symbol, with subscripts in parentheses, is worth in a call.
pub fn values(
    alloc: Global,
    text: &str,
    name_entry: &str,
    operands: &str,
    symbol: &str,
) -> Result<String, OutOfMemory> {
    let Some(prototype) = prototype(alloc, text)? else {
        return word(alloc, "none");
    };
    let prototype = Rc::new(alloc, prototype)?;
    let operands = split_operands(alloc, operands)?;
    let (binding, _notes) = bind(alloc, &prototype, name_entry, &operands)?;
    let (name, numbers) = match symbol.split_once('(') {
        Some((name, rest)) => (name, subscripts(alloc, rest.trim_end_matches(')'))?),
        None => (symbol, Vec::new(alloc)),
    };
    match Name::read(name) {
        Some(name) => worth(alloc, binding.value(alloc, &name, numbers.as_slice())?),
        None => word(alloc, "no name"),
    }
}
