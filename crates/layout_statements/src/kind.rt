//! What an operation is to layout.
ghost use Rattle.std.specs.Prelude.{◌≡◌};
ghost use Rattle.layout_statements.specs.Kinds as kinds;

use constant_operands::ConstantUse;
use instruction_table::Format;
use symbol_attributes::OpMeaning;

/// What an operation is to layout.
#[derive(Clone, Copy, Debug, PartialEq, Eq)]
pub(crate) enum Kind {
    Instruction(Format),
    Constants(ConstantUse),
    /// CSECT and START.
    ControlSection,
    /// DSECT.
    DummySection,
    Equate,
    Org,
    /// LTORG.
    Pool,
    /// EXTRN and WXTRN.
    Externals,
    Entries,
    End,
    Using,
    Drop,
    /// It asks for nothing.
    Other,
}

/// What an operation of the assembler of this name is.
fn kind_of_name(name: &str) -> Kind
    ensures { result ≡ kinds.kind_of_name name.now }
{
    match name {
        "CSECT" | "START" => Kind::ControlSection,
        "DSECT" => Kind::DummySection,
        "DC" => Kind::Constants(ConstantUse::Dc),
        "DS" => Kind::Constants(ConstantUse::Ds),
        "EQU" => Kind::Equate,
        "ORG" => Kind::Org,
        "LTORG" => Kind::Pool,
        "EXTRN" | "WXTRN" => Kind::Externals,
        "ENTRY" => Kind::Entries,
        "END" => Kind::End,
        "USING" => Kind::Using,
        "DROP" => Kind::Drop,
        _ => Kind::Other,
    }
}

/// What an operation is to layout.
pub(crate) fn kind_of(op: &OpMeaning) -> Kind
    ensures { result ≡ kinds.kind_of op.now }
{
    match op {
        OpMeaning::Machine(format) => Kind::Instruction(*format),
        OpMeaning::Assembler(name) => kind_of_name(name.text()),
        OpMeaning::Other => Kind::Other,
    }
}
