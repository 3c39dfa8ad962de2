//! Operands that are symbols.
ghost use Rattle.std.specs.Prelude.{◌≡◌, ◌+◌, [], ◌∷◌, ◌++◌, map, IfOk, OnOk, encode_utf8_all};
ghost use Rattle.std.specs.List.{prefix_len};
ghost use Rattle.std.specs.Str.{chars};
ghost use Rattle.hl_base.specs.Symbols.{is_symbol_character, symbol_of};
ghost use Rattle.layout_statements.specs.Symbols as spec;
ghost use Rattle.layout_statements.specs.Views.{symbol_reading_of};

use hl_base::{Name, OutOfMemory, Text, is_letter, is_symbol_character};
use operand_list::hlasm_statements::text::head;
use std::alloc::Global;

/// How many characters a symbol has at most.
const MOST_CHARACTERS: usize = 63;

/// What is read of a symbol: its name, or how many characters some symbol begins with.
#[derive(Drop)]
pub enum ReadSymbol {
    Name(Name),
    At(u32),
}

/// How many characters of a text some symbol begins with.
fn symbol_front(text: &str) -> u32
    ensures { result ≡ spec.symbol_front (chars text.now) }
{
    match head(text) {
        Some((c, rest)) if is_letter(c) => front_behind(rest),
        _ => 0,
    }
}

/// How many letters and digits a text begins with.
fn letter_count(text: &str) -> usize
    ensures { result ≡ prefix_len is_symbol_character (chars text.now) }
{
    text.chars().take_while(|c| is_symbol_character(*c)).count()
}

/// How many characters some symbol begins with that has a letter before this text.
fn front_behind(rest: &str) -> u32
    ensures { result ≡ spec.front_behind (chars rest.now) }
{
    let count = letter_count(rest);
    if count < MOST_CHARACTERS {
        count as u32 + 1
    } else {
        MOST_CHARACTERS as u32
    }
}

/// The name that a text spells.
fn name_of(text: &str) -> Option<Name>
    ensures { result ≡ symbol_of (encode_utf8_all (chars text.now)) }
{
    Name::read(text)
}

/// Reads a symbol.
fn read_symbol(text: &str) -> ReadSymbol
    ensures { symbol_reading_of result ≡ spec.symbol_reading (chars text.now) }
{
    match name_of(text) {
        Some(name) => ReadSymbol::Name(name),
        None => ReadSymbol::At(symbol_front(text)),
    }
}

/// Adds a symbol behind others.
fn push(symbols: &mut Vec<ReadSymbol>, symbol: ReadSymbol) -> Result<(), OutOfMemory>
    ensures { OnOk result (symbols.new.items ≡ symbols.old.items ++ symbol ∷ []) }
{
    symbols.push(symbol)?;
    Ok(())
}

/// Reads each operand as a symbol.
#[tactic(auto, using(crate::proofs::Maps::mapped_more))]
fn read_each(alloc: Global, operands: &[Text]) -> Result<Vec<ReadSymbol>, OutOfMemory>
    ensures { IfOk result (λ symbols. map symbol_reading_of symbols.items ≡ map spec.symbol_reading operands.now) }
{
    let mut symbols = Vec::new(alloc);
    for operand in operands {
        push(&mut symbols, read_symbol(operand.as_str()))?;
    }
    Ok(symbols)
}

/// Reads each operand as a symbol; where there is no operand an empty one is read.
pub(crate) fn read_symbols(alloc: Global, operands: &[Text]) -> Result<Vec<ReadSymbol>, OutOfMemory>
    ensures { IfOk result (λ symbols. map symbol_reading_of symbols.items ≡ spec.symbol_readings operands.now) }
{
    let mut symbols = read_each(alloc, operands)?;
    if operands.is_empty() {
        push(&mut symbols, ReadSymbol::At(0))?;
    }
    Ok(symbols)
}
