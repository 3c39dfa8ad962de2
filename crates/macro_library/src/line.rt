//! Lines of definitions, as they are written.
ghost use Rattle.std.specs.Prelude.{◌≡◌, IfOk, codes};
ghost use Rattle.std.specs.Str.{chars};
ghost use Rattle.macro_binding.specs.Prototypes as prototypes;
ghost use Rattle.statement_listing.specs.Listings as listings;
ghost use Rattle.statement_listing.specs.StatementReadingViews.{instruction_of};
ghost use Rattle.macro_library.specs.Extents as extents;

use hl_base::{Name, OutOfMemory};
use statement_listing::statement_reading::Instruction;
use statement_listing::{Line, begins_definition, begun_behind, ends_definition};

/// The name that a text is.
pub(crate) fn name_of(text: &str) -> Option<Name>
    ensures { result ≡ prototypes.name_of (chars text.now) }
{
    Name::read(text)
}

/// Whether a line begins a definition.
pub(crate) fn begins(line: &Line) -> bool
    ensures { result ≡ extents.begins_at line.now }
{
    match line.reading() {
        Some(reading) => begins_definition(&reading.instruction),
        None => false,
    }
}

/// Whether a line is the MEND that ends the definition in which it stands, where so many inner ones are begun before it.
pub(crate) fn closes(begun: usize, line: &Line) -> bool
    ensures { result ≡ extents.closes begun line.now }
{
    match line.reading() {
        Some(reading) => begun == 0 && ends_definition(&reading.instruction),
        None => false,
    }
}

/// How many definitions are begun and not ended behind a line, where so many are before it. `OutOfMemory` where a `usize`
/// does not count them.
pub(crate) fn behind(begun: usize, line: &Line) -> Result<usize, OutOfMemory>
    ensures { IfOk result (λ n. n ≡ extents.behind begun line.now) }
{
    match line.reading() {
        Some(reading) => {
            if begun == usize::MAX {
                return Err(OutOfMemory);
            }
            Ok(begun_behind(begun, &reading.instruction))
        }
        None => Ok(begun),
    }
}

/// Whether an operation as it is written is COPY.
fn is_copy(instruction: &Instruction) -> bool
    ensures { result ≡ listings.has_name (codes "COPY") (instruction_of instruction.now) }
{
    match instruction {
        Instruction::Known(known) => known.name.text() == "COPY",
        Instruction::Idle
        | Instruction::Unread(_)
        | Instruction::Nameless(_, _)
        | Instruction::Varying(_) => false,
    }
}

/// The member that a line copies as it is written.
pub(crate) fn copied(line: &Line) -> Option<Name>
    ensures { result ≡ extents.copied line.now }
{
    match line.reading() {
        Some(reading) => {
            if is_copy(&reading.instruction) {
                return name_of(line.statement().operands.as_str());
            }
            None
        }
        None => None,
    }
}
