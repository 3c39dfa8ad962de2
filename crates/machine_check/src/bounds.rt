//! The values that an operand may have.
ghost use Rattle.std.specs.Prelude.{◌≡◌};
ghost use Rattle.machine_check.specs.Bounds as specs;

use instruction_table::Kind;

/// The least and the greatest of some values.
#[derive(Clone, Copy, Debug, PartialEq, Eq)]
pub struct Bounds {
    pub least: i32,
    pub greatest: i32,
}

impl Bounds {
    /// Whether a value is none below the least and none above the greatest.
    pub fn contains(&self, value: i32) -> bool
        ensures { result ≡ specs.contains self.now value }
    {
        self.least <= value && value <= self.greatest
    }
}

/// The values from one to another.
fn between(least: i32, greatest: i32) -> Option<Bounds>
    ensures { result ≡ specs.between least greatest }
{
    Some(Bounds { least, greatest })
}

/// What the value of an operand of this kind may be, or the length in it; `None` where it may be anything.
pub fn allowed(kind: Kind) -> Option<Bounds>
    ensures { result ≡ specs.allowed kind }
{
    match kind {
        Kind::Register
        | Kind::FloatRegister
        | Kind::AccessRegister
        | Kind::ControlRegister
        | Kind::Mask
        | Kind::Immediate4 => between(0, 15),
        Kind::VectorRegister => between(0, 31),
        Kind::Immediate8 => between(0, 255),
        Kind::Immediate8Signed => between(-128, 255),
        Kind::Immediate12 => between(0, 4095),
        Kind::Immediate16 | Kind::Immediate16Unsigned => between(-32_768, 65_535),
        Kind::LengthTo256 => between(0, 256),
        Kind::LengthTo16 => between(0, 16),
        Kind::Immediate32
        | Kind::Indexed
        | Kind::IndexedLong
        | Kind::VectorIndexed
        | Kind::Based
        | Kind::BasedLong
        | Kind::RegisterLength
        | Kind::Target => None,
    }
}
