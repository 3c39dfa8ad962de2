//! Layouts of statements.
use crate::rows::push_row;
use hl_base::{Frames, Line, OutOfMemory, Text};
use note_rows::{Row, note};
use ordinary_symbols::Symbols;
use section_layout::{Layout, StatementLayout, lay_out};
use section_table::Place;
use statement_checks::check_statements;
use std::alloc::{AllocError, Global};
use trace_values::{Reloc, Section};

/// What a case shows of a layout.
#[derive(Clone, Copy, Drop)]
enum Shown {
    Notes,
    Places,
    Symbols,
    Sections,
    Literals,
}

/// What a word asks to be shown.
fn part(word: &str) -> Shown {
    match word {
        "notes" => Shown::Notes,
        "places" => Shown::Places,
        "symbols" => Shown::Symbols,
        "sections" => Shown::Sections,
        _ => Shown::Literals,
    }
}

/// The words before and behind the first blank.
fn parted(text: &str) -> (&str, &str) {
    match text.split_once(' ') {
        Some((word, rest)) => (word, rest),
        None => (text, ""),
    }
}

/// A statement; one without a label begins with a hyphen.
fn line(alloc: Global, text: &str) -> Result<Line, OutOfMemory> {
    let (label, rest) = parted(text);
    let (op, operands) = parted(rest);
    let label = if label == "-" { "" } else { label };
    Ok(Line {
        label: Text::of(alloc, label)?,
        op: Text::of(alloc, op)?,
        operands: Text::of(alloc, operands)?,
    })
}

/// Statements, with semicolons between them.
fn lines(alloc: Global, text: &str) -> Result<Vec<Line>, OutOfMemory> {
    let mut lines = Vec::new(alloc);
    for statement in text.split(';') {
        lines.push(line(alloc, statement.trim())?)?;
    }
    Ok(lines)
}

/// The same lines, lent.
fn lent(alloc: Global, lines: &[Line]) -> Result<Vec<&Line>, OutOfMemory> {
    let mut lent = Vec::new(alloc);
    for line in lines {
        lent.push(line)?;
    }
    Ok(lent)
}

/// Their layout.
fn layout(alloc: Global, lines: &[Line]) -> Result<Layout, OutOfMemory> {
    let lent = lent(alloc, lines)?;
    lay_out(alloc, lent.as_slice())
}

/// A word behind others.
fn push(words: &mut String, word: &str) -> Result<(), AllocError> {
    if !words.is_empty() {
        words.push_str(" ")?;
    }
    words.push_str(word)
}

/// A place: the number of its section and its offset.
fn place(alloc: Global, place: Option<Place>) -> Result<String, AllocError> {
    match place {
        Some(Place { section, offset }) => format!(in alloc; "{section}:{offset}"),
        None => String::from_str(alloc, "-"),
    }
}

/// What is said of each statement of which something is said: its number from 0, and the codes.
fn notes(alloc: Global, layout: &Layout) -> Result<String, OutOfMemory> {
    let mut words = String::new(alloc);
    for (at, statement) in layout.statements.iter().enumerate() {
        if !statement.rows.is_empty() {
            let number = format!(in alloc; "{at}:")?;
            push(&mut words, number.as_str())?;
            push_codes(alloc, statement.rows.as_slice(), &mut words)?;
        }
    }
    Ok(words)
}

/// The codes of some rows.
fn push_codes(alloc: Global, rows: &[Row], words: &mut String) -> Result<(), OutOfMemory> {
    for row in rows {
        let code = note(alloc, row, Frames::new(alloc))?.code;
        let word = format!(in alloc; "{code}")?;
        push(words, word.as_str())?;
    }
    Ok(())
}

/// Where each statement stands and how many bytes it takes.
fn places(alloc: Global, layout: &Layout) -> Result<String, OutOfMemory> {
    let mut words = String::new(alloc);
    for statement in &layout.statements {
        let at = place(alloc, statement.place)?;
        let bytes = statement.bytes;
        let at = at.as_str();
        let word = format!(in alloc; "{at}+{bytes}")?;
        push(&mut words, word.as_str())?;
    }
    Ok(words)
}

/// A value.
fn value(alloc: Global, value: Option<Reloc>) -> Result<String, AllocError> {
    match value {
        Some(Reloc { section, value }) => match section {
            Some(section) => {
                let number = section.0;
                format!(in alloc; "{number}:{value}")
            }
            None => format!(in alloc; "{value}"),
        },
        None => String::from_str(alloc, "?"),
    }
}

/// The number of the statement that defines the symbol at a place.
fn definer(statements: &[StatementLayout], symbol: usize) -> usize {
    let mut number = 0;
    for statement in statements {
        if symbol < statement.symbols {
            return number;
        }
        number = number.saturating_add(1);
    }
    number
}

/// Each symbol: its name, its value, its type and length, and the number of the statement that defines it.
fn symbols(
    alloc: Global,
    symbols: &Symbols,
    statements: &[StatementLayout],
) -> Result<String, OutOfMemory> {
    let mut words = String::new(alloc);
    for at in 0..symbols.count() {
        if let Some(row) = symbols.row(at) {
            let name = row.name.text();
            let value = value(alloc, row.value)?;
            let value = value.as_str();
            let letter = char::from(row.attr.letter);
            let length = row.attr.length;
            let number = definer(statements, at);
            let word = format!(in alloc; "{name}={value},{letter}{length}@{number}")?;
            push(&mut words, word.as_str())?;
        }
    }
    Ok(words)
}

/// The name of a section.
fn name(section: &Section) -> &str {
    match &section.name {
        Some(name) => name.text(),
        None => "(unnamed)",
    }
}

/// Each section and its length.
fn sections(alloc: Global, sections: &[Section]) -> Result<String, OutOfMemory> {
    let mut words = String::new(alloc);
    for section in sections {
        let name = name(section);
        let length = section.length;
        let word = format!(in alloc; "{name}+{length}")?;
        push(&mut words, word.as_str())?;
    }
    Ok(words)
}

/// Where the literals of each statement stand that has some: its number from 0, and their places.
fn literals(alloc: Global, layout: &Layout) -> Result<String, OutOfMemory> {
    let mut words = String::new(alloc);
    for (number, statement) in layout.statements.iter().enumerate() {
        if !statement.uses.is_empty() {
            let number = format!(in alloc; "{number}:")?;
            push(&mut words, number.as_str())?;
            push_literals(alloc, layout, statement, &mut words)?;
        }
    }
    Ok(words)
}

fn push_literals(
    alloc: Global,
    layout: &Layout,
    statement: &StatementLayout,
    words: &mut String,
) -> Result<(), OutOfMemory> {
    for used in &statement.uses {
        let at = match *used {
            Some(used) => layout.literals.place(used),
            None => None,
        };
        let word = place(alloc, at)?;
        push(words, word.as_str())?;
    }
    Ok(())
}

/// What is asked for of the layout of some statements.
pub fn laid_out(alloc: Global, word: &str, text: &str) -> Result<String, OutOfMemory> {
    let lines = lines(alloc, text)?;
    let layout = layout(alloc, lines.as_slice())?;
    match part(word) {
        Shown::Notes => notes(alloc, &layout),
        Shown::Places => places(alloc, &layout),
        Shown::Symbols => symbols(alloc, &layout.symbols, layout.statements.as_slice()),
        Shown::Sections => sections(alloc, layout.sections.as_slice()),
        Shown::Literals => literals(alloc, &layout),
    }
}

/// What is said of each statement of which something is said, once it is laid out and checked: its number from 0, and the rows.
pub fn checked(alloc: Global, text: &str) -> Result<String, OutOfMemory> {
    let lines = lines(alloc, text)?;
    let lent = lent(alloc, lines.as_slice())?;
    let mut layout = lay_out(alloc, lent.as_slice())?;
    check_statements(alloc, lent.as_slice(), &mut layout)?;
    let mut words = String::new(alloc);
    for (at, statement) in layout.statements.iter().enumerate() {
        if !statement.rows.is_empty() {
            let number = format!(in alloc; "{at}:")?;
            push(&mut words, number.as_str())?;
            for row in &statement.rows {
                push_row(alloc, row, &mut words)?;
            }
        }
    }
    Ok(words)
}
