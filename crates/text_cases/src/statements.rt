//! Statements of a text, in short.
use hl_base::OutOfMemory;
use hlasm_statements::{Field, Statement, ends_quoted, read_statements};
use std::alloc::{AllocError, Global};

/// The codes of a statement's faults.
fn push_codes(line: &mut String, alloc: Global, statement: &Statement) -> Result<(), AllocError> {
    for fault in statement.faults.as_slice() {
        let code = format!(in alloc; " H{:03}", fault.code())?;
        line.push_str(code.as_str())?;
    }
    line.push_str(";")
}

/// The lines of a statement, from 0, its shape, name entry and operation.
fn shape(alloc: Global, s: &Statement) -> Result<String, AllocError> {
    let (label, op) = (s.label.as_str(), s.op.as_str());
    format!(in alloc; "{}-{} {:?} [{label}] [{op}]", s.first, s.last, s.shape)
}

/// Each statement's lines, shape, name entry, operation and codes.
pub fn shapes(alloc: Global, text: &str) -> Result<String, OutOfMemory> {
    let statements = read_statements(alloc, text)?;
    let mut line = String::new(alloc);
    for statement in statements.as_slice() {
        line.push_str(shape(alloc, statement)?.as_str())?;
        push_codes(&mut line, alloc, statement)?;
    }
    Ok(line)
}

/// The fields of a statement, with `open` behind operands that end within quotes.
fn entries(alloc: Global, s: &Statement) -> Result<String, OutOfMemory> {
    let (label, op, operands) = (s.label.as_str(), s.op.as_str(), s.operands.as_str());
    let open = if ends_quoted(operands)? { " open" } else { "" };
    Ok(format!(in alloc; "[{label}] [{op}] [{operands}]{open}")?)
}

/// Each statement's fields and codes.
pub fn fields(alloc: Global, text: &str) -> Result<String, OutOfMemory> {
    let statements = read_statements(alloc, text)?;
    let mut line = String::new(alloc);
    for statement in statements.as_slice() {
        line.push_str(entries(alloc, statement)?.as_str())?;
        push_codes(&mut line, alloc, statement)?;
    }
    Ok(line)
}

/// The field of this word.
fn field(word: &str) -> Field {
    match word {
        "name" => Field::Label,
        "operation" => Field::Op,
        _ => Field::Operands,
    }
}

/// Where the character stands that is worded `FIELD NUMBER`, in each statement: its line, from 0, and its column, from 1.
pub fn place(alloc: Global, text: &str, words: &str) -> Result<String, OutOfMemory> {
    let (word, number) = words.split_once(' ').unwrap_or((words, ""));
    let number = number.parse::<u32>().unwrap_or(0);
    let statements = read_statements(alloc, text)?;
    let mut places = String::new(alloc);
    for statement in statements.as_slice() {
        let (line, column) = statement.place(field(word), number);
        let place = format!(in alloc; "{line}:{column};")?;
        places.push_str(place.as_str())?;
    }
    Ok(places)
}
