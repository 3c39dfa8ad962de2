//! Where macro definitions begin and end, as they are written.
ghost use Rattle.std.specs.Prelude.{◌≡◌, ◌+◌, ◌<◌, ◌^◌};
ghost use Rattle.statement_reading.specs.Views.{instruction_of};
ghost use Rattle.statement_listing.specs.Listings as listings;

use statement_reading::Instruction;

/// Whether an operation as it is written has this name.
fn has_name(instruction: &Instruction, name: &str) -> bool
    ensures { result ≡ listings.has_name name.now (instruction_of instruction.now) }
{
    match instruction {
        Instruction::Known(known) => known.name.text() == name,
        Instruction::Idle
        | Instruction::Unread(_)
        | Instruction::Nameless(_, _)
        | Instruction::Varying(_) => false,
    }
}

/// Whether a statement as it is written begins a macro definition.
pub fn begins_definition(instruction: &Instruction) -> bool
    ensures { result ≡ listings.begins (instruction_of instruction.now) }
{
    has_name(instruction, "MACRO")
}

/// Whether a statement as it is written ends a macro definition.
pub fn ends_definition(instruction: &Instruction) -> bool
    ensures { result ≡ listings.ends (instruction_of instruction.now) }
{
    has_name(instruction, "MEND")
}

/// How many definitions are begun and not ended behind a statement, where so many are before it.
pub fn begun_behind(begun: usize, instruction: &Instruction) -> usize
    requires { begun + 1 < 2 ^ 64 }
    ensures { result ≡ listings.begun_behind begun (instruction_of instruction.now) }
{
    if begins_definition(instruction) {
        return begun + 1;
    }
    if ends_definition(instruction) {
        return begun.saturating_sub(1);
    }
    begun
}
