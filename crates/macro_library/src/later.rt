//! Whether statements of a definition may copy members when its macro is called.
ghost use Rattle.std.specs.Prelude.{◌≡◌, ◌==◌, ◌&&◌, ◌||◌};
ghost use Rattle.macro_library.specs.Later as later;

use statement_listing::Line;
use statement_listing::statement_reading::Instruction;

/// Whether a line may be COPY when it is processed.
fn may_copy(line: &Line) -> bool
    ensures { result ≡ later.may_copy line.now }
{
    match line.reading() {
        Some(reading) => match &reading.instruction {
            Instruction::Known(known) => known.name.text() == "COPY",
            Instruction::Varying(_) => true,
            Instruction::Idle | Instruction::Unread(_) | Instruction::Nameless(_, _) => false,
        },
        None => false,
    }
}

/// Whether a line before it may, or a line may that stands in no inner definition, where so many are begun before it.
pub(crate) fn may_copy_by(before: bool, begun: usize, line: &Line) -> bool
    ensures { result ≡ (before || ((begun == 0) && later.may_copy line.now)) }
{
    before || (begun == 0 && may_copy(line))
}
