//! What fields of conditional assembly say.
use crate::trees::fault;
use conditional_fields::{Goto, Piece, Template, ago, declarations, ended};
use hl_base::{Declaration, OutOfMemory, SetKind};
use operand_grammar::Expr;
use std::alloc::{AllocError, Global};

/// Words with blanks between them.
fn push_word(line: &mut String, word: &str) -> Result<(), AllocError> {
    if !line.is_empty() {
        line.push_str(" ")?;
    }
    line.push_str(word)
}

/// The names that are declared, each with `()` behind it where it is an array.
fn names(alloc: Global, list: &[Declaration]) -> Result<String, AllocError> {
    let mut line = String::new(alloc);
    for one in list {
        push_word(&mut line, one.name.text())?;
        line.push_str(if one.array { "()" } else { "" })?;
    }
    Ok(line)
}

/// What a field declares.
pub fn declared(alloc: Global, field: &str) -> Result<String, OutOfMemory> {
    match declarations(alloc, SetKind::B, true, field) {
        Ok(list) => Ok(names(alloc, list.as_slice())?),
        Err(stop) => fault(alloc, stop),
    }
}

/// The labels of an AGO, behind a number sign where a number chooses.
fn labels(alloc: Global, goto: &Goto) -> Result<String, AllocError> {
    match goto {
        Goto::To(name) => String::from_str(alloc, name.text()),
        Goto::Among(_, first, others) => {
            let mut line = format!(in alloc; "# {}", first.text())?;
            for name in others {
                push_word(&mut line, name.text())?;
            }
            Ok(line)
        }
    }
}

/// Where an AGO branches to.
pub fn branches(alloc: Global, field: &str) -> Result<String, OutOfMemory> {
    match ago(alloc, field) {
        Ok(goto) => Ok(labels(alloc, &goto)?),
        Err(stop) => fault(alloc, stop),
    }
}

/// Plain characters, or a variable symbol and how many subscripts it has.
fn piece(alloc: Global, piece: &Piece) -> Result<String, AllocError> {
    match piece {
        Piece::Plain(text) => String::from_str(alloc, text.as_str()),
        Piece::Variable(Expr::Variable(_, symbol, subscripts)) => {
            format!(in alloc; "{}:{}", symbol.name.text(), subscripts.len())
        }
        Piece::Variable(_) => String::from_str(alloc, "?"),
    }
}

/// Pieces, each with a bar behind it.
fn barred(alloc: Global, pieces: &[Piece]) -> Result<String, AllocError> {
    let mut line = String::new(alloc);
    for one in pieces {
        line.push_str(piece(alloc, one)?.as_str())?;
        line.push_str("|")?;
    }
    Ok(line)
}

/// The pieces of a field.
pub fn pieces(alloc: Global, field: &str) -> Result<String, OutOfMemory> {
    match Template::read(alloc, field) {
        Ok(template) => Ok(barred(alloc, template.pieces.as_slice())?),
        Err(stop) => fault(alloc, stop),
    }
}

/// The field at the front of a text.
pub fn ending(alloc: Global, text: &str) -> Result<String, OutOfMemory> {
    Ok(String::from_str(alloc, ended(alloc, text)?.as_str())?)
}
