//! The names of statements, in short.
use hl_base::OutOfMemory;
use hlasm_statements::{Statement, read_statements};
use statement_names::{NameKind, OperandUse, WrittenName, names_in, operand_use, span_of};
use std::alloc::{AllocError, Global};

/// What a name is, in a word.
fn word(kind: NameKind) -> &'static str {
    match kind {
        NameKind::Variable => "&",
        NameKind::Symbol => "symbol ",
        NameKind::Label => "label ",
        NameKind::SequenceLabel => "label .",
        NameKind::SequenceReference => "to .",
        NameKind::Operation => "operation ",
        NameKind::Member => "member ",
    }
}

/// Adds a name: what it is, and its line, from 0, its column, from 1, and the column behind it.
fn push_name(
    line: &mut String,
    alloc: Global,
    statement: &Statement,
    name: &WrittenName,
) -> Result<(), AllocError> {
    let span = span_of(statement, name);
    let (kind, spelled) = (word(name.kind), name.name.text());
    let said = format!(in alloc; "{kind}{spelled} {}:{}-{};", span.line, span.from, span.to)?;
    if !line.is_empty() {
        line.push_str(" ")?;
    }
    line.push_str(said.as_str())
}

/// Adds the names of a statement whose operation reads this of its operands.
fn push_names(
    line: &mut String,
    alloc: Global,
    statement: &Statement,
    used: OperandUse,
) -> Result<(), OutOfMemory> {
    let names = names_in(alloc, statement, used)?;
    for name in names.as_slice() {
        push_name(line, alloc, statement, name)?;
    }
    Ok(())
}

/// The names of the statements of a text, whose operations are as they are written.
pub fn as_written(alloc: Global, text: &str) -> Result<String, OutOfMemory> {
    let statements = read_statements(alloc, text)?;
    let mut line = String::new(alloc);
    for statement in statements.as_slice() {
        let used = operand_use(statement.op.as_str());
        push_names(&mut line, alloc, statement, used)?;
    }
    Ok(line)
}

/// What the operation reads that is worded so: an operation after substitution; `macro` is one that names a macro, and
/// `unread` one whose operands cannot be read.
fn worded(op: &str) -> OperandUse {
    match op {
        "macro" | "unread" => OperandUse::Unread,
        _ => operand_use(op),
    }
}

/// The names of the statements of a text, whose operation after substitution is worded so.
pub fn substituted(alloc: Global, text: &str, op: &str) -> Result<String, OutOfMemory> {
    let statements = read_statements(alloc, text)?;
    let mut line = String::new(alloc);
    for statement in statements.as_slice() {
        push_names(&mut line, alloc, statement, worded(op))?;
    }
    Ok(line)
}
