//! What kind of character stands in an expression.
ghost use Rattle.std.specs.Prelude.{◌≡◌, ◌≤◌};
ghost use Rattle.std.specs.Char.{digit_value};
ghost use Rattle.expression_grammar.specs.Characters as characters;
ghost use Rattle.expression_grammar.specs.Spelling as spelling;

use crate::tree::{Attribute, Operator, Reference};

/// Which grammar is read: that of the expressions of SETA, or that of machine and assembler instructions.
#[derive(Clone, Copy, Debug, PartialEq, Eq)]
pub enum Grammar {
    Arithmetic,
    Ordinary,
}

/// What a character is to an expression.
#[derive(Clone, Copy, Debug, PartialEq, Eq)]
pub enum Kind {
    Mark(Operator),
    Open,
    Close,
    Comma,
    Blank,
    Quote,
    Ampersand,
    Digit,
    Letter,
    Other,
}

/// What a character is.
#[tactic(auto, unfolding(crate::specs::Characters::kind_of))]
pub fn kind_of(c: char) -> Kind
    ensures { result ≡ characters.kind_of c }
{
    match c {
        '+' => Kind::Mark(Operator::Add),
        '-' => Kind::Mark(Operator::Subtract),
        '*' => Kind::Mark(Operator::Multiply),
        '/' => Kind::Mark(Operator::Divide),
        '(' => Kind::Open,
        ')' => Kind::Close,
        ',' => Kind::Comma,
        ' ' | '\t' => Kind::Blank,
        '\'' => Kind::Quote,
        '&' => Kind::Ampersand,
        '0'..='9' => Kind::Digit,
        'A'..='Z' | 'a'..='z' | '$' | '_' | '#' | '@' => Kind::Letter,
        _ => Kind::Other,
    }
}

/// The value of a digit or a letter, from 0 for `0` to 35 for `Z`, and 36 for any other character.
pub fn digit_value(c: char) -> u32
    ensures value { result ≡ digit_value c }
    ensures small { result ≤ 36 }
{
    match c {
        '0'..='9' => c as u32 - 48,
        'A'..='Z' => c as u32 - 55,
        'a'..='z' => c as u32 - 87,
        _ => 36,
    }
}

impl Grammar {
    /// Whether blanks may stand between its tokens.
    pub fn has_blanks(self) -> bool
        ensures { result ≡ spelling.has_blanks self }
    {
        match self {
            Grammar::Arithmetic => true,
            Grammar::Ordinary => false,
        }
    }

    /// Whether ordinary symbols have values in it.
    pub fn is_ordinary(self) -> bool
        ensures { result ≡ spelling.is_ordinary self }
    {
        match self {
            Grammar::Arithmetic => false,
            Grammar::Ordinary => true,
        }
    }

    /// Whether an attribute of an ordinary symbol may be asked for.
    pub fn asks_of_symbol(self, asked: Attribute) -> bool
        ensures { result ≡ spelling.asks_of_symbol self asked }
    {
        match (self, asked) {
            (_, Attribute::Length) => true,
            (Grammar::Arithmetic, Attribute::Defined) => true,
            _ => false,
        }
    }

    /// Whether the value or an attribute of a variable symbol may stand in it.
    pub fn may_vary(self, asked: Reference) -> bool
        ensures { result ≡ spelling.may_vary self asked }
    {
        match (self, asked) {
            (Grammar::Ordinary, _) => false,
            (Grammar::Arithmetic, Reference::Value) => true,
            (Grammar::Arithmetic, Reference::Of(Attribute::Type)) => false,
            (Grammar::Arithmetic, Reference::Of(_)) => true,
        }
    }
}
