//! How operands are written, by their kinds.
ghost use Rattle.std.specs.Prelude.{◌≡◌};
ghost use Rattle.machine_operands.specs.Forms as spec;

use instruction_table::Kind;

/// What stands in parentheses behind the displacement of an address.
#[derive(Clone, Copy, Debug, PartialEq, Eq)]
pub enum AddressForm {
    /// A base, or nothing: `d`, `d(b)`.
    Based,
    /// An index or a length, a base, both or nothing: `d`, `d(x)`, `d(x,b)`, `d(,b)`.
    Indexed,
    /// A register in the length's place, alone or before a base: `d(r)`, `d(r,b)`.
    Counted,
}

/// How an operand is written.
#[derive(Clone, Copy, Debug, PartialEq, Eq)]
pub enum OperandForm {
    /// An expression: a register, a mask or an immediate value.
    Value,
    /// An expression that is a relative target.
    Target,
    Address(AddressForm),
}

/// How an operand of this kind is written.
pub fn form_of(kind: Kind) -> OperandForm
    ensures { result ≡ spec.form_of kind }
{
    match kind {
        Kind::Register
        | Kind::FloatRegister
        | Kind::AccessRegister
        | Kind::ControlRegister
        | Kind::VectorRegister
        | Kind::Mask
        | Kind::Immediate4
        | Kind::Immediate8
        | Kind::Immediate8Signed
        | Kind::Immediate12
        | Kind::Immediate16
        | Kind::Immediate16Unsigned
        | Kind::Immediate32 => OperandForm::Value,
        Kind::Target => OperandForm::Target,
        Kind::Based | Kind::BasedLong => OperandForm::Address(AddressForm::Based),
        Kind::Indexed
        | Kind::IndexedLong
        | Kind::VectorIndexed
        | Kind::LengthTo256
        | Kind::LengthTo16 => OperandForm::Address(AddressForm::Indexed),
        Kind::RegisterLength => OperandForm::Address(AddressForm::Counted),
    }
}

impl AddressForm {
    /// Whether something must stand in parentheses.
    pub(crate) fn needs_parts(self) -> bool
        ensures { result ≡ spec.needs_parts self }
    {
        match self {
            AddressForm::Counted => true,
            AddressForm::Based | AddressForm::Indexed => false,
        }
    }

    /// Whether two expressions may stand there.
    pub(crate) fn has_two(self) -> bool
        ensures { result ≡ spec.has_two self }
    {
        match self {
            AddressForm::Indexed | AddressForm::Counted => true,
            AddressForm::Based => false,
        }
    }

    /// Whether the first of two may be left away.
    pub(crate) fn may_omit_first(self) -> bool
        ensures { result ≡ spec.may_omit_first self }
    {
        match self {
            AddressForm::Indexed => true,
            AddressForm::Based | AddressForm::Counted => false,
        }
    }
}
