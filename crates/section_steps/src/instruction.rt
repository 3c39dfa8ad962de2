//! Machine instructions.
ghost use Rattle.std.specs.Prelude.{◌≡◌, map, IfOk, OnOk};
ghost use Rattle.instruction_table.specs.Formats.{length_of};
ghost use Rattle.layout_statements.specs.Views.{read_literal_of};
ghost use Rattle.section_steps.specs.Instructions as spec;
ghost use Rattle.section_steps.specs.Views.{laid_of, state_of};

use crate::gathering::{Gathered, say_fits};
use crate::labels::define_label;
use crate::literals::use_literals;
use crate::places::{bytes_between, take, value_at};
use crate::{Laid, Left, State};
use hl_base::{Attr, Name, OutOfMemory};
use instruction_table::{Format, length};
use layout_statements::ReadLiteral;
use std::alloc::Global;

/// What a label means on an instruction of so many bytes.
fn attr(bytes: u8) -> Attr
    ensures { result ≡ spec.instruction_attr bytes }
{
    Attr {
        letter: b'I',
        length: u32::from(bytes),
    }
}

/// A machine instruction takes its room, its literals join the pool, and its label is defined behind them.
#[tactic(auto, unfolding(crate::specs::Instructions::instruction_behind, crate::specs::Instructions::instruction_laid))]
pub(crate) fn instruction(
    alloc: Global,
    state: &mut State,
    format: Format,
    literals: Vec<ReadLiteral>,
    label: Option<Name>,
) -> Result<Laid, OutOfMemory>
    ensures behind { OnOk result (state_of state.new ≡ spec.instruction_behind (length_of format)
        (map read_literal_of literals.items) label (state_of state.old)) }
    ensures laid { IfOk result (λ laid. laid_of laid ≡ spec.instruction_laid (length_of format) (map read_literal_of literals.items) label
        (state_of state.old)) }
{
    let bytes = length(format);
    let stand = take(&mut state.sections, 2, u64::from(bytes));
    let here = value_at(stand.place)?;
    let mut gathered = Gathered::new(alloc);
    say_fits(&mut gathered.said, stand.fits)?;
    use_literals(
        alloc,
        &state.symbols,
        here,
        &mut state.literals,
        literals,
        &mut gathered,
    )?;
    let mut said_of_symbols = Vec::new(alloc);
    define_label(
        alloc,
        &mut state.symbols,
        label,
        stand.place,
        attr(bytes),
        &mut said_of_symbols,
    )?;
    Ok(Laid {
        place: stand.place,
        bytes: bytes_between(stand.place, state.sections.here()),
        here,
        uses: gathered.uses,
        said: gathered.said,
        said_of_symbols,
        left: Left::Operands(gathered.operands),
    })
}
