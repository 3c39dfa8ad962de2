//! How long constants are, and on which boundary they stand.
ghost use Rattle.std.specs.Prelude.{◌≡◌};
ghost use Rattle.constant_table.specs.Lengths as lengths;

use crate::ConstantType;

/// What an operand is written for.
#[derive(Clone, Copy, Debug, PartialEq, Eq)]
pub enum Purpose {
    /// DC, or a literal.
    Constant,
    /// DS.
    Storage,
}

impl ConstantType {
    /// The length in bytes of a constant without explicit length: of one whose value has so many characters or digits,
    /// or that has no value.
    pub fn implied_length(self, digits: Option<usize>) -> usize
        ensures { result ≡ lengths.implied_length self digits }
    {
        match digits {
            Some(count) => self.length_of_value(count),
            None => self.length_without_value(),
        }
    }

    /// The length of a constant whose value has so many characters or digits.
    fn length_of_value(self, digits: usize) -> usize
        ensures { result ≡ lengths.length_of_value self digits }
    {
        match self {
            ConstantType::Character | ConstantType::Zoned => digits,
            ConstantType::Hexadecimal => digits / 2 + digits % 2,
            ConstantType::Binary => digits / 8 + (digits % 8 + 7) / 8,
            ConstantType::Packed => digits / 2 + 1,
            _ => self.length_without_value(),
        }
    }

    /// The length of a constant that has no value.
    fn length_without_value(self) -> usize
        ensures { result ≡ lengths.length_without_value self }
    {
        match self {
            ConstantType::Character
            | ConstantType::Hexadecimal
            | ConstantType::Binary
            | ConstantType::Packed
            | ConstantType::Zoned => 1,
            ConstantType::Halfword | ConstantType::ShortAddress | ConstantType::BasedAddress => 2,
            ConstantType::Fullword
            | ConstantType::Address
            | ConstantType::ExternalAddress
            | ConstantType::ShortFloat => 4,
            ConstantType::Doubleword | ConstantType::LongAddress | ConstantType::LongFloat => 8,
            ConstantType::ExtendedFloat => 16,
        }
    }

    /// The boundary in bytes on which a constant without explicit length stands; with one it stands on any byte.
    pub fn alignment(self) -> u32
        ensures { result ≡ lengths.alignment_of self }
    {
        match self {
            ConstantType::Character
            | ConstantType::Hexadecimal
            | ConstantType::Binary
            | ConstantType::Packed
            | ConstantType::Zoned => 1,
            ConstantType::Halfword | ConstantType::ShortAddress | ConstantType::BasedAddress => 2,
            ConstantType::Fullword
            | ConstantType::Address
            | ConstantType::ExternalAddress
            | ConstantType::ShortFloat => 4,
            ConstantType::Doubleword
            | ConstantType::LongAddress
            | ConstantType::LongFloat
            | ConstantType::ExtendedFloat => 8,
        }
    }

    /// The greatest explicit length in bytes; the least is 0.
    pub fn greatest_length(self, purpose: Purpose) -> u32
        ensures { result ≡ lengths.greatest_length purpose self }
    {
        match self {
            ConstantType::Character | ConstantType::Hexadecimal => match purpose {
                Purpose::Constant => 256,
                Purpose::Storage => 65_535,
            },
            ConstantType::Binary => 256,
            ConstantType::Packed | ConstantType::Zoned | ConstantType::ExtendedFloat => 16,
            ConstantType::Fullword
            | ConstantType::Halfword
            | ConstantType::Doubleword
            | ConstantType::Address
            | ConstantType::LongAddress
            | ConstantType::LongFloat
            | ConstantType::ShortFloat => 8,
            ConstantType::ExternalAddress => 4,
            ConstantType::ShortAddress | ConstantType::BasedAddress => 2,
        }
    }
}
