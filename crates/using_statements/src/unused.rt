//! Registers that are not in use.
ghost use Rattle.std.specs.Prelude.{◌≡◌, ◌++◌, ◌<◌, length, take, slice_index, map, OnOk};
ghost use Rattle.std.specs.List.{All, filter};
ghost use Rattle.note_rows.specs.declared.row.Row.TheVariants.{UnusedRegister};
ghost use Rattle.using_ranges.specs.Ranges.{is_among};
ghost use Rattle.using_statements.specs.Said as spec;

use hl_base::OutOfMemory;
use note_rows::Row;

/// Whether a register, which is below 16, is marked.
fn is_marked(mask: u16, register: u8) -> bool
    requires { register < 16 }
    ensures { result ≡ spec.is_marked mask register }
{
    (mask >> register) % 2 == 1
}

/// Whether a register is one of these.
fn is_among(registers: &[u8], register: u8) -> bool
    ensures { result ≡ is_among register registers.now }
{
    for other in registers {
        if *other == register {
            return true;
        }
    }
    false
}

/// Says of a register, which is below 16, that it is not in use, where it is marked and is not one of those before it.
fn push_one(mask: u16, before: &[u8], register: u8, rows: &mut Vec<Row>) -> Result<(), OutOfMemory>
    requires { register < 16 }
    ensures { OnOk result (rows.new.items ≡ rows.old.items ++ spec.said_of_one mask before.now register) }
{
    if is_marked(mask, register) && !is_among(before, register) {
        rows.push(Row::UnusedRegister(u32::from(register)))?;
    }
    Ok(())
}

/// The same of the register at a place among these, which are below 16.
fn push_at(
    mask: u16,
    registers: &[u8],
    place: usize,
    rows: &mut Vec<Row>,
) -> Result<(), OutOfMemory>
    requires small { All (λ r. r < 16) registers.now }
    requires inside { place < length registers.now }
    ensures { OnOk result (rows.new.items ≡ rows.old.items ++ spec.said_of_one mask (take place registers.now) (slice_index registers.now place)) }
{
    let before = &registers[..place];
    let register = registers[place];
    push_one(mask, before, register, rows)
}

/// Says of each of these registers that is marked that it is not in use, once. They are below 16.
pub(crate) fn push_marked(
    mask: u16,
    registers: &[u8],
    rows: &mut Vec<Row>,
) -> Result<(), OutOfMemory>
    requires { All (λ r. r < 16) registers.now }
    ensures { OnOk result (rows.new.items ≡ rows.old.items
        ++ map (λ register. UnusedRegister register) (filter (spec.is_marked mask) (spec.each_once registers.now))) }
{
    for place in 0..registers.len() {
        push_at(mask, registers, place, rows)?;
    }
    Ok(())
}
