//! The symbols of a case.
use hl_base::{Attr, Frames, Name, OutOfMemory};
use ordinary_symbols::{DefineFault, Symbols};
use std::alloc::Global;
use trace_values::{Reloc, SectionId, SymbolRow};

/// A value: a number, or an offset behind the number of a section.
pub fn value(word: &str) -> Reloc {
    match word.split_once(':') {
        Some((section, offset)) => Reloc {
            section: Some(SectionId(section.parse::<u32>().unwrap_or(0))),
            value: offset.parse::<i32>().unwrap_or(0),
        },
        None => Reloc {
            section: None,
            value: word.parse::<i32>().unwrap_or(0),
        },
    }
}

/// Defines a symbol; one that has no value is written without one.
fn define(alloc: Global, symbols: &mut Symbols, words: &str) -> Result<(), OutOfMemory> {
    let (name, value) = match words.split_once('=') {
        Some((name, word)) => (name, Some(value(word))),
        None => (words, None),
    };
    let Some(name) = Name::read(name) else {
        return Ok(());
    };
    let row = SymbolRow {
        name,
        value,
        attr: Attr {
            letter: b'U',
            length: 1,
        },
        stack: Frames::new(alloc),
    };
    match symbols.define(alloc, row) {
        Ok(()) | Err(DefineFault::AlreadyDefined) => Ok(()),
        Err(DefineFault::OutOfMemory) => Err(OutOfMemory),
    }
}

/// Symbols, with blanks between them.
pub fn defined(alloc: Global, words: &str) -> Result<Symbols, OutOfMemory> {
    let mut symbols = Symbols::new(alloc);
    for word in words.split(' ') {
        define(alloc, &mut symbols, word)?;
    }
    Ok(symbols)
}
