//! How many operands an instruction has.
ghost use Rattle.std.specs.Prelude.{◌≡◌};
ghost use Rattle.machine_check.specs.Counts.{said_of_count};

use instruction_table::{Format, operands, optional};
use note_rows::Row;

/// What is said of this many operands.
pub fn count_note(format: Format, count: usize) -> Option<Row>
    ensures { result ≡ said_of_count format count }
{
    let most = operands(format).len();
    let least = most.saturating_sub(optional(format) as usize);
    if least <= count && count <= most {
        return None;
    }
    Some(Row::WrongOperandCount)
}
