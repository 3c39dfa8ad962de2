//! Generated statements as layout reads them.
use constant_operands::ConstantOperand;
use hl_base::{Line, Name, OutOfMemory, Text};
use instruction_table::length;
use layout_statements::{
    Equate, LayoutStatement, ReadLiteral, ReadSymbol, Reading, Task, mentions_place,
};
use std::alloc::{AllocError, Global};

/// What was read of an expression: `*` where that is a term of it, else a dot; or the place where it cannot be read.
fn reading(alloc: Global, reading: &Reading) -> Result<String, AllocError> {
    match reading {
        Reading::Tree(formula) if mentions_place(&formula.tree) => String::from_str(alloc, "*"),
        Reading::Tree(_) => String::from_str(alloc, "."),
        Reading::At(at) => format!(in alloc; "at {at}"),
    }
}

/// The same of an operand that may be missing.
fn some_reading(alloc: Global, found: &Option<Reading>) -> Result<String, AllocError> {
    match found {
        Some(found) => reading(alloc, found),
        None => String::from_str(alloc, "none"),
    }
}

/// What EQU says.
fn equate(alloc: Global, equate: &Equate) -> Result<String, AllocError> {
    let value = reading(alloc, &equate.value)?;
    let length = some_reading(alloc, &equate.length)?;
    let letter = char::from(equate.letter);
    format!(in alloc; "equate {}, {}, {letter}", value.as_str(), length.as_str())
}

/// Some words behind others.
fn push(words: &mut String, more: &str) -> Result<(), AllocError> {
    words.push_str(" ")?;
    words.push_str(more)
}

/// Whether an operand is read.
fn constant(operand: &ConstantOperand) -> &'static str {
    if operand.constant.is_some() {
        "read"
    } else {
        "unread"
    }
}

/// Whether each operand is read.
fn constants(alloc: Global, operands: &[ConstantOperand]) -> Result<String, AllocError> {
    let mut words = String::from_str(alloc, "constants")?;
    for operand in operands {
        push(&mut words, constant(operand))?;
    }
    Ok(words)
}

/// The literals of an instruction.
fn literals(alloc: Global, bytes: u8, literals: &[ReadLiteral]) -> Result<String, AllocError> {
    let mut words = format!(in alloc; "instruction of {bytes}")?;
    for literal in literals {
        push(&mut words, literal.text.as_str())?;
        push(&mut words, constant(&literal.constant))?;
    }
    Ok(words)
}

/// Adds a symbol, or the place where it cannot be read.
fn push_symbol(alloc: Global, words: &mut String, symbol: &ReadSymbol) -> Result<(), AllocError> {
    match symbol {
        ReadSymbol::Name(name) => push(words, name.text()),
        ReadSymbol::At(at) => {
            let place = format!(in alloc; "at {at}")?;
            push(words, place.as_str())
        }
    }
}

/// Symbols behind a word.
fn symbols(alloc: Global, word: &str, symbols: &[ReadSymbol]) -> Result<String, AllocError> {
    let mut words = String::from_str(alloc, word)?;
    for symbol in symbols {
        push_symbol(alloc, &mut words, symbol)?;
    }
    Ok(words)
}

/// A word and what was read of an operand.
fn with_operand(alloc: Global, word: &str, found: &Option<Reading>) -> Result<String, AllocError> {
    let operand = some_reading(alloc, found)?;
    format!(in alloc; "{word} {}", operand.as_str())
}

/// What a statement asks for.
fn task(alloc: Global, task: &Task) -> Result<String, AllocError> {
    match task {
        Task::Instruction(format, found) => literals(alloc, length(*format), found.as_slice()),
        Task::Constants(operands) => constants(alloc, operands.as_slice()),
        Task::ControlSection => String::from_str(alloc, "control section"),
        Task::DummySection => String::from_str(alloc, "dummy section"),
        Task::Equate(said) => equate(alloc, said),
        Task::Org(to) => with_operand(alloc, "org", to),
        Task::Pool => String::from_str(alloc, "pool"),
        Task::Externals(found) => symbols(alloc, "externals", found.as_slice()),
        Task::Entries(found) => symbols(alloc, "entries", found.as_slice()),
        Task::End(at) => with_operand(alloc, "end", at),
        Task::Bases(true) => String::from_str(alloc, "bases with *"),
        Task::Bases(false) => String::from_str(alloc, "bases"),
        Task::Other => String::from_str(alloc, "nothing"),
    }
}

/// The symbol that a label defines.
fn label(label: &Option<Name>) -> &str {
    match label {
        Some(name) => name.text(),
        None => "no label",
    }
}

/// What is read of a statement with a name entry, an operation and an operand field.
pub fn statement(
    alloc: Global,
    entry: &str,
    op: &str,
    operands: &str,
) -> Result<String, OutOfMemory> {
    let line = Line {
        label: Text::of(alloc, entry)?,
        op: Text::of(alloc, op)?,
        operands: Text::of(alloc, operands)?,
    };
    let statement = LayoutStatement::read(alloc, &line)?;
    let asked = task(alloc, &statement.task)?;
    let name = label(&statement.label);
    Ok(format!(in alloc; "{name}; {}", asked.as_str())?)
}
