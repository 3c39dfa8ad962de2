//! The types of constants: their spelling, their attribute letters and their values.
ghost use Rattle.std.specs.Prelude.{◌≡◌};
ghost use Rattle.constant_table.specs.Types as types;

/// A type of constants.
#[derive(Clone, Copy, Debug, PartialEq, Eq)]
pub enum ConstantType {
    /// C: characters.
    Character,
    /// X: hexadecimal digits.
    Hexadecimal,
    /// B: bits.
    Binary,
    /// P: packed decimal.
    Packed,
    /// Z: zoned decimal.
    Zoned,
    /// F: a fullword.
    Fullword,
    /// H: a halfword.
    Halfword,
    /// FD: a doubleword.
    Doubleword,
    /// A: an address of four bytes.
    Address,
    /// AD: an address of eight bytes.
    LongAddress,
    /// Y: an address of two bytes.
    ShortAddress,
    /// V: the address of an external symbol.
    ExternalAddress,
    /// S: an address as a base register and a displacement.
    BasedAddress,
    /// D: floating point in eight bytes.
    LongFloat,
    /// E: floating point in four bytes.
    ShortFloat,
    /// L: floating point in sixteen bytes.
    ExtendedFloat,
}

/// What the values of a type are. The first five stand within apostrophes, the next three within parentheses.
#[derive(Clone, Copy, Debug, PartialEq, Eq)]
pub enum ValueKind {
    /// One text.
    Text,
    /// Hexadecimal digits.
    HexadecimalDigits,
    /// Binary digits.
    Bits,
    /// Signed decimal numbers that may have a period.
    Decimals,
    /// Signed decimal numbers without a period.
    Integers,
    /// Ordinary expressions.
    Expressions,
    /// Ordinary symbols.
    Symbols,
    /// Addresses with a base register or without.
    Addresses,
    /// Floating-point numbers, within apostrophes, of which only the commas are read.
    Floats,
}

impl ConstantType {
    /// The type that a letter names, in either case.
    #[tactic(auto, unfolding(crate::specs::Types::type_of, crate::specs::Types::spellings))]
    pub fn of_letter(letter: char) -> Option<ConstantType>
        ensures { result ≡ types.type_of letter }
    {
        match letter.to_ascii_uppercase() {
            'C' => Some(ConstantType::Character),
            'X' => Some(ConstantType::Hexadecimal),
            'B' => Some(ConstantType::Binary),
            'P' => Some(ConstantType::Packed),
            'Z' => Some(ConstantType::Zoned),
            'F' => Some(ConstantType::Fullword),
            'H' => Some(ConstantType::Halfword),
            'A' => Some(ConstantType::Address),
            'Y' => Some(ConstantType::ShortAddress),
            'V' => Some(ConstantType::ExternalAddress),
            'S' => Some(ConstantType::BasedAddress),
            'D' => Some(ConstantType::LongFloat),
            'E' => Some(ConstantType::ShortFloat),
            'L' => Some(ConstantType::ExtendedFloat),
            _ => None,
        }
    }

    /// The type that this one becomes where a second letter stands behind its own, in either case: FD and AD.
    pub fn extended(self, letter: char) -> Option<ConstantType>
        ensures { result ≡ types.extended_by letter self }
    {
        match (self, letter.to_ascii_uppercase()) {
            (ConstantType::Fullword, 'D') => Some(ConstantType::Doubleword),
            (ConstantType::Address, 'D') => Some(ConstantType::LongAddress),
            _ => None,
        }
    }

    /// The letter of its labels, an ASCII character, where the constant has no explicit length.
    pub fn letter(self) -> u8
        ensures { result ≡ types.letter_of self }
    {
        match self {
            ConstantType::Character => b'C',
            ConstantType::Hexadecimal => b'X',
            ConstantType::Binary => b'B',
            ConstantType::Packed => b'P',
            ConstantType::Zoned => b'Z',
            ConstantType::Fullword | ConstantType::Doubleword => b'F',
            ConstantType::Halfword => b'H',
            ConstantType::Address | ConstantType::LongAddress => b'A',
            ConstantType::ShortAddress => b'Y',
            ConstantType::ExternalAddress => b'V',
            ConstantType::BasedAddress => b'S',
            ConstantType::LongFloat => b'D',
            ConstantType::ShortFloat => b'E',
            ConstantType::ExtendedFloat => b'L',
        }
    }

    /// The letter of its labels where the constant has an explicit length.
    pub fn letter_with_length(self) -> u8
        ensures { result ≡ types.letter_with_length_of self }
    {
        match self.kind() {
            ValueKind::Text
            | ValueKind::HexadecimalDigits
            | ValueKind::Bits
            | ValueKind::Decimals => self.letter(),
            ValueKind::Integers => b'G',
            ValueKind::Expressions | ValueKind::Symbols | ValueKind::Addresses => b'R',
            ValueKind::Floats => b'K',
        }
    }

    /// What its values are.
    pub fn kind(self) -> ValueKind
        ensures { result ≡ types.kind_of self }
    {
        match self {
            ConstantType::Character => ValueKind::Text,
            ConstantType::Hexadecimal => ValueKind::HexadecimalDigits,
            ConstantType::Binary => ValueKind::Bits,
            ConstantType::Packed | ConstantType::Zoned => ValueKind::Decimals,
            ConstantType::Fullword | ConstantType::Halfword | ConstantType::Doubleword => {
                ValueKind::Integers
            }
            ConstantType::Address | ConstantType::LongAddress | ConstantType::ShortAddress => {
                ValueKind::Expressions
            }
            ConstantType::ExternalAddress => ValueKind::Symbols,
            ConstantType::BasedAddress => ValueKind::Addresses,
            ConstantType::LongFloat | ConstantType::ShortFloat | ConstantType::ExtendedFloat => {
                ValueKind::Floats
            }
        }
    }
}
