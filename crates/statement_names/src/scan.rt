//! Names that are sought in a text, from left to right.
ghost use Rattle.std.specs.Prelude.{◌≡◌, ◌==◌, ◌&&◌, not, ℕ, List, ◌∷◌, [], ◌++◌, slice_index, IfOk, OnOk};
ghost use Rattle.std.specs.Option.{option_or};
ghost use Rattle.std.specs.Str.{chars};
ghost use Rattle.statement_names.specs.Names as names;
ghost use Rattle.statement_names.specs.Scans.{Stands};

use crate::name::{NameKind, Named, WrittenNames};
use crate::text::{advance, counted, is_front, name_of, word_length};
use hl_base::{Name, Nesting, OutOfMemory, is_symbol_character};
use hlasm_statements::Field;
use hlasm_statements::text::{before, behind, character_count, head};

/// What is sought in a text.
#[derive(Clone, Copy, Debug, PartialEq, Eq)]
pub(crate) enum Sought {
    /// Variable symbols.
    Variables,
    /// Ordinary symbols.
    Symbols,
    /// Variable symbols, and the sequence symbol with which an operand of AGO or AIF ends.
    Branch,
}

/// What the characters so far mean for the next one.
#[derive(Clone, Copy)]
struct Marks {
    nesting: Nesting,
    /// Whether an ampersand would be the second of two.
    is_second: bool,
    /// Whether a letter or a digit came last.
    is_joined: bool,
}

impl Marks {
    /// Before the first character.
    fn new() -> Marks
        ensures { Stands result [] }
    {
        Marks {
            nesting: Nesting::new(),
            is_second: false,
            is_joined: false,
        }
    }

    /// Reads the next character.
    fn read(self, c: char) -> Result<Marks, OutOfMemory>
        ensures { IfOk result (λ marks. (before : List ℕ) → Stands self before → Stands marks (c ∷ before)) }
    {
        let mut nesting = self.nesting;
        nesting.read(c)?;
        Ok(Marks {
            nesting,
            is_second: c == '&' && !self.is_second,
            is_joined: is_symbol_character(c),
        })
    }
}

/// A name of a kind, written with so many characters, if there is one.
pub(crate) fn named(kind: NameKind, count: u32, name: Option<Name>) -> Option<Named>
    ensures { result ≡ names.named kind count name }
{
    match name {
        Some(name) => Some(Named { kind, count, name }),
        None => None,
    }
}

/// The variable symbol that begins with a character, if one does.
fn variable(is_second: bool, c: char, behind: &str) -> Result<Option<Named>, OutOfMemory>
    ensures { IfOk result (λ found. found ≡ names.variable_with is_second c (chars behind.now)) }
{
    if c != '&' || is_second {
        return Ok(None);
    }
    let length = word_length(behind);
    let count = advance(1, length)?;
    Ok(named(NameKind::Variable, count, name_of(before(behind, length))))
}

/// Whether a word at the front of a text may be an ordinary symbol.
fn is_free(is_joined: bool, is_quoted: bool, text: &str, length: usize) -> bool
    ensures { result ≡ (not is_joined && (not is_quoted && not (slice_index (chars text.now) length == 39))) }
{
    !is_joined && !is_quoted && !is_front(behind(text, length), '\'')
}

/// The ordinary symbol that a text begins with, if it begins with one.
fn symbol(is_joined: bool, is_quoted: bool, text: &str) -> Result<Option<Named>, OutOfMemory>
    ensures { IfOk result (λ found. found ≡ names.symbol_with is_joined is_quoted (chars text.now)) }
{
    if is_joined || is_quoted {
        return Ok(None);
    }
    let length = word_length(text);
    if !is_free(is_joined, is_quoted, text, length) {
        return Ok(None);
    }
    let count = counted(length)?;
    Ok(named(NameKind::Symbol, count, name_of(before(text, length))))
}

/// The sequence symbol that begins with a character and is all that is left, if one does. What is left is counted only where it is
/// a name, so a long text costs nothing at each of its periods.
fn reference(c: char, behind: &str) -> Result<Option<Named>, OutOfMemory>
    ensures { IfOk result (λ found. found ≡ names.reference_with c (chars behind.now)) }
{
    if c != '.' {
        return Ok(None);
    }
    let Some(name) = name_of(behind) else {
        return Ok(None);
    };
    let count = advance(1, character_count(behind))?;
    Ok(Some(Named {
        kind: NameKind::SequenceReference,
        count,
        name,
    }))
}

/// The variable symbol that begins with a character, or else the sequence symbol.
fn branch_name(is_second: bool, c: char, behind: &str) -> Result<Option<Named>, OutOfMemory>
    ensures { IfOk result (λ found. found ≡ option_or (names.variable_with is_second c (chars behind.now)) (names.reference_with c (chars behind.now))) }
{
    if let Some(found) = variable(is_second, c, behind)? {
        return Ok(Some(found));
    }
    reference(c, behind)
}

/// The name of those that are sought that begins with a character, with which this text begins.
fn name_at(
    sought: Sought,
    marks: Marks,
    c: char,
    text: &str,
    behind: &str,
) -> Result<Option<Named>, OutOfMemory>
    requires { chars text.now ≡ c ∷ chars behind.now }
    ensures { IfOk result (λ found. (before : List ℕ) → Stands marks before → found ≡ names.name_at sought before c (chars behind.now)) }
{
    match sought {
        Sought::Variables => variable(marks.is_second, c, behind),
        Sought::Symbols => symbol(marks.is_joined, marks.nesting.is_quoted(c), text),
        Sought::Branch => branch_name(marks.is_second, c, behind),
    }
}

/// Adds the names of those that are sought in a text that stands behind so many characters of a field.
pub(crate) fn push_names(
    sought: Sought,
    field: Field,
    at: u32,
    text: &str,
    found: &mut WrittenNames,
) -> Result<(), OutOfMemory>
    ensures { OnOk result (found.new ≡ found.old ++ names.names sought field at (chars text.now)) }
{
    let mut marks = Marks::new();
    let mut place = at;
    let mut left = text;
    while let Some((c, rest)) = head(left) {
        let named = name_at(sought, marks, c, left, rest)?;
        found.push_at(field, place, named)?;
        marks = marks.read(c)?;
        place = advance(place, 1)?;
        left = rest;
    }
    Ok(())
}
