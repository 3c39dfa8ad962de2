//! The letters and digits of a symbol that is being read.
ghost use Rattle.std.specs.Prelude.{◌≡◌, ◌<◌, ◌≤◌, ℕ, List, [], ◌∷◌, ◌++◌, length, IsTrue, Option, Some, None};
ghost use Rattle.std.specs.Char.{to_ascii_uppercase};
ghost use Rattle.hl_base.specs.Symbols.{is_letter, is_symbol_character};
ghost use Rattle.expression_grammar.specs.Parts.{single};

use arrayvec::ArrayString;
use hl_base::Name;
use std::marker::Model;

/// The longest symbol, in characters.
pub const LONGEST: usize = 63;

/// An ordinary symbol, upper-cased. Contracts see its characters.
#[derive(Drop)]
pub struct Spelled {
    upper: ArrayString<LONGEST>,
}

impl Model for Spelled {
    ghost use Rattle.std.specs.Prelude.{◌≡◌, ℕ, List, Some};
    ghost use Rattle.hl_base.specs.Symbols.{symbol_of};

    ghost Value = { List ℕ };

    ghost view = { λ s. s.upper.bytes };

    ghost invariant = { λ s. symbol_of s.upper.bytes ≡ Some s.upper.bytes };
}

impl Spelled {
    /// The symbol of one letter.
    pub fn new(c: char) -> Spelled
        requires { IsTrue (is_letter c) }
        ensures { result ≡ to_ascii_uppercase c ∷ [] }
    {
        let mut upper = ArrayString::new();
        upper.push(c.to_ascii_uppercase());
        Spelled { upper }
    }

    /// How many characters it has.
    pub fn len(&self) -> usize
        ensures length { result ≡ length self.now }
        ensures short { result ≤ LONGEST }
    {
        self.upper.len()
    }

    /// The symbol with a letter or digit more, for which there is room.
    pub fn with(self, c: char) -> Spelled
        requires room { length self < LONGEST }
        requires character { IsTrue (is_symbol_character c) }
        ensures { result ≡ self ++ to_ascii_uppercase c ∷ [] }
    {
        let mut upper = self.upper;
        upper.push(c.to_ascii_uppercase());
        Spelled { upper }
    }

    /// Its only letter, where it has one character.
    pub fn single(&self) -> Option<u8>
        ensures { result ≡ single self.now }
    {
        let bytes = self.upper.as_bytes();
        if bytes.len() == 1 {
            Some(bytes[0])
        } else {
            None
        }
    }

    /// The name.
    pub fn name(&self) -> Name
        ensures { result ≡ self.now }
    {
        match Name::read(self.upper.as_str()) {
            Some(name) => name,
            None => unreachable!(),
        }
    }
}
