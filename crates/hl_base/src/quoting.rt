//! Quoted texts and parentheses in a field, read character by character: the one rule for apostrophes, which the
//! fields of statements and their operands share.
ghost use Rattle.std.specs.Prelude.{◌≡◌, ℕ, List, [], ◌∷◌, IfOk, OnOk, if◌then◌else◌};
ghost use Rattle.hl_base.specs.Quoting as quoting;

use crate::OutOfMemory;
use crate::symbol::{is_letter, is_symbol_character};

/// What the characters so far mean for the next one.
#[derive(Clone, Copy, Debug, PartialEq, Eq)]
enum Mark {
    /// A letter may begin a symbol here.
    Free,
    /// A symbol character or an ampersand came last.
    Joined,
    /// The letter of an attribute reference came last, and began its symbol.
    Letter,
    /// An apostrophe behind such a letter came last: the next character says what it is.
    Apostrophe,
    /// Within quotes.
    Quoted,
}

fn is_attribute_letter(c: char) -> bool
    ensures { result ≡ quoting.is_attribute_letter c }
{
    is_letter(c) && names_attribute(c.to_ascii_uppercase())
}

/// Whether an upper-cased letter, alone before an apostrophe, asks for an attribute (HLASM Language Reference SC26-4940,
/// "Attribute references").
pub fn names_attribute(c: char) -> bool
    ensures { result ≡ quoting.names_attribute c }
{
    matches!(c, 'D' | 'I' | 'K' | 'L' | 'N' | 'O' | 'S' | 'T')
}

fn is_joining(c: char) -> bool
    ensures { result ≡ quoting.is_joining c }
{
    is_symbol_character(c) || c == '&'
}

fn is_attributed(c: char) -> bool
    ensures { result ≡ quoting.is_attributed c }
{
    is_letter(c) || matches!(c, '&' | '=')
}

impl Mark {
    /// What a character leaves.
    fn behind(self, c: char) -> Mark
        ensures { result ≡ quoting.mark_behind self c }
    {
        match self {
            Mark::Quoted if c == '\'' => Mark::Free,
            Mark::Quoted => Mark::Quoted,
            Mark::Apostrophe if is_attributed(c) => Mark::outside(true, c),
            Mark::Apostrophe if c == '\'' => Mark::Free,
            Mark::Apostrophe => Mark::Quoted,
            Mark::Letter if c == '\'' => Mark::Apostrophe,
            Mark::Free | Mark::Joined if c == '\'' => Mark::Quoted,
            Mark::Free => Mark::outside(true, c),
            Mark::Joined | Mark::Letter => Mark::outside(false, c),
        }
    }

    /// What a character outside quotes leaves that is no apostrophe.
    fn outside(begins: bool, c: char) -> Mark
        ensures { result ≡ quoting.mark_outside begins c }
    {
        if begins && is_attribute_letter(c) {
            Mark::Letter
        } else if is_joining(c) {
            Mark::Joined
        } else {
            Mark::Free
        }
    }

    /// Whether the next character stands within quotes.
    fn is_within(self, c: char) -> bool
        ensures { result ≡ quoting.is_within self c }
    {
        match self {
            Mark::Quoted => true,
            Mark::Apostrophe => !is_attributed(c),
            Mark::Free | Mark::Joined | Mark::Letter => false,
        }
    }
}

/// Whether the next character of a field stands within quotes, and in how many parentheses.
#[derive(Clone, Copy, Debug, PartialEq, Eq)]
pub struct Nesting {
    mark: Mark,
    depth: u32,
}

impl Nesting {
    ghost use Rattle.hl_base.specs.Quoting.{IsBehind, is_quoted, depth};

    /// Before the first character.
    pub fn new() -> Nesting
        ensures { IsBehind result [] }
    {
        Nesting {
            mark: Mark::Free,
            depth: 0,
        }
    }

    /// Reads the next character. `OutOfMemory` only where more parentheses are open than a `u32` counts.
    pub fn read(&mut self, c: char) -> Result<(), OutOfMemory>
        ensures { OnOk result ((before : List ℕ) → IsBehind self.old before → IsBehind self.new (c ∷ before)) }
    {
        self.depth = self.depth_behind(c)?;
        self.mark = self.mark.behind(c);
        Ok(())
    }

    /// Whether the next character stands within quotes.
    pub fn is_quoted(self, next: char) -> bool
        ensures { (before : List ℕ) → IsBehind self before → result ≡ is_quoted next before }
    {
        self.mark.is_within(next)
    }

    /// How many parentheses are open.
    pub fn depth(self) -> u32
        ensures { (before : List ℕ) → IsBehind self before → result ≡ depth before }
    {
        self.depth
    }

    /// How many parentheses are open behind the next character.
    fn depth_behind(self, c: char) -> Result<u32, OutOfMemory>
        ensures { IfOk result (λ n. n ≡ (if quoting.is_within self.mark c then self.depth else quoting.depth_outside self.depth c)) }
    {
        if self.mark.is_within(c) {
            return Ok(self.depth);
        }
        match c {
            '(' => self.depth.checked_add(1).ok_or(OutOfMemory),
            ')' => Ok(self.depth.saturating_sub(1)),
            _ => Ok(self.depth),
        }
    }
}
