//! Answers to requests on symbols, as a case words them: a place is `URI; FROM-TO`, a symbol `KIND; NAME; FROM-TO`.
use crate::reports::{cut, span};
use hl_base::{OutOfMemory, Text};
use lsp_messages::{
    DocumentSymbol, DocumentSymbols, Location, Locations, SymbolAnswer, SymbolKind,
};
use std::alloc::Global;

/// The place that is worded so.
fn place(alloc: Global, words: &str) -> Result<Location, OutOfMemory> {
    let (uri, range) = cut(words);
    Ok(Location {
        uri: Text::of(alloc, uri)?,
        range: span(range),
    })
}

/// Places in order.
fn places(alloc: Global, fields: &[String]) -> Result<Locations, OutOfMemory> {
    let mut places = Locations::new(alloc);
    for field in fields {
        places.push(place(alloc, field.as_str())?)?;
    }
    Ok(places)
}

/// The symbol that is worded so.
fn symbol(alloc: Global, words: &str) -> Result<DocumentSymbol, OutOfMemory> {
    let (kind, words) = cut(words);
    let (name, range) = cut(words);
    let kind = match kind {
        "constant" => SymbolKind::Constant,
        _ => SymbolKind::Variable,
    };
    Ok(DocumentSymbol {
        kind,
        name: Text::of(alloc, name)?,
        range: span(range),
    })
}

/// Symbols in order.
fn symbols(alloc: Global, fields: &[String]) -> Result<DocumentSymbols, OutOfMemory> {
    let mut symbols = DocumentSymbols::new(alloc);
    for field in fields {
        symbols.push(symbol(alloc, field.as_str())?)?;
    }
    Ok(symbols)
}

/// The answer of this kind; of another, nothing.
pub fn answer(alloc: Global, kind: &str, fields: &[String]) -> Result<SymbolAnswer, OutOfMemory> {
    match (kind, fields) {
        ("place", [one]) => Ok(SymbolAnswer::Place(place(alloc, one.as_str())?)),
        ("places", all) => Ok(SymbolAnswer::Places(places(alloc, all)?)),
        ("hover", [text]) => Ok(SymbolAnswer::Hover(Text::of(alloc, text.as_str())?)),
        ("symbols", all) => Ok(SymbolAnswer::Symbols(symbols(alloc, all)?)),
        _ => Ok(SymbolAnswer::Nothing),
    }
}
