//! Names of symbols, macros and members: ordinary symbols, upper-cased.
ghost use Rattle.std.specs.Prelude.{◌≡◌, ◌<◌, ◌≤◌, [], ◌∷◌, ◌++◌, length, map, IsTrue};
ghost use Rattle.std.specs.List.{list_all, AllPass};
ghost use Rattle.std.specs.Char.{to_ascii_uppercase};
ghost use Rattle.hl_base.specs.Symbols.{is_symbol, symbol_of, is_symbol_character, is_no_small_letter};

use crate::symbol::{is_letter, is_symbol_character};
use arrayvec::ArrayString;
use std::marker::Model;

/// The longest name, in characters.
pub const LONGEST_NAME: usize = 63;

/// The name of a symbol, a macro or a member. Contracts see its upper-cased characters; it takes no memory.
#[derive(Drop)]
pub struct Name {
    upper: ArrayString<LONGEST_NAME>,
}

impl Model for Name {
    ghost use Rattle.std.specs.Prelude.{ℕ, List};

    ghost Value = { List ℕ };

    ghost view = { λ n. n.upper.bytes };
}

/// Whether each of the bytes may stand in a symbol behind its first letter.
fn are_symbol_characters(bytes: &[u8]) -> bool
    ensures { result ≡ list_all is_symbol_character bytes.now }
{
    bytes
        .iter()
        .all(|byte| is_symbol_character(char::from(*byte)))
}

/// Whether a text is an ordinary symbol.
fn is_symbol(text: &[u8]) -> bool
    ensures { result ≡ is_symbol text.now }
{
    if text.is_empty() || text.len() > LONGEST_NAME || !is_letter(char::from(text[0])) {
        return false;
    }
    are_symbol_characters(&text[1..])
}

/// Adds a letter or digit, upper-cased, for which there is room.
fn push_upper(upper: &mut ArrayString<LONGEST_NAME>, byte: u8)
    requires room { length upper.old.bytes < LONGEST_NAME }
    requires character { IsTrue (is_symbol_character byte) }
    ensures { upper.new.bytes ≡ upper.old.bytes ++ to_ascii_uppercase byte ∷ [] }
{
    upper.push(byte.to_ascii_uppercase() as char);
}

/// The letters and digits of a symbol, upper-cased.
fn upper_cased(symbol: &[u8]) -> ArrayString<LONGEST_NAME>
    requires short { length symbol.now ≤ LONGEST_NAME }
    requires characters { AllPass is_symbol_character symbol.now }
    ensures { result.bytes ≡ map to_ascii_uppercase symbol.now }
{
    let mut upper = ArrayString::new();
    for byte in symbol {
        push_upper(&mut upper, *byte);
    }
    upper
}

/// Whether none of the bytes is a small letter.
fn have_no_small_letter(bytes: &[u8]) -> bool
    ensures { result ≡ list_all is_no_small_letter bytes.now }
{
    bytes.iter().all(|byte| !byte.is_ascii_lowercase())
}

/// The characters of a symbol, as they stand.
fn as_written(symbol: &str) -> ArrayString<LONGEST_NAME>
    requires short { length symbol.now ≤ LONGEST_NAME }
    ensures { result.bytes ≡ symbol.now }
{
    let mut written = ArrayString::new();
    written.push_str(symbol);
    written
}

/// The characters of a symbol, upper-cased. Most symbols are written so, and are taken at once.
fn upper_of(symbol: &str) -> ArrayString<LONGEST_NAME>
    requires short { length symbol.now ≤ LONGEST_NAME }
    requires characters { AllPass is_symbol_character symbol.now }
    ensures { result.bytes ≡ map to_ascii_uppercase symbol.now }
{
    if have_no_small_letter(symbol.as_bytes()) {
        return as_written(symbol);
    }
    upper_cased(symbol.as_bytes())
}

impl Name {
    /// The name that a text spells in either case of letters; `None` exactly where the text is no ordinary symbol of
    /// 1 to 63 characters (SC26-4940, "Symbols").
    pub fn read(text: &str) -> Option<Name>
        ensures { result ≡ symbol_of text.now }
    {
        if !is_symbol(text.as_bytes()) {
            return None;
        }
        Some(Name {
            upper: upper_of(text),
        })
    }

    /// The upper-cased characters.
    pub fn text(&self) -> &str
        ensures { result.now ≡ self.now }
    {
        self.upper.as_str()
    }

    /// The same name once more.
    pub fn copy(&self) -> Name
        ensures { result ≡ self.now }
    {
        Name { upper: self.upper }
    }
}
