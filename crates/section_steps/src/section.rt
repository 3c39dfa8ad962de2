//! CSECT, START and DSECT.
ghost use Rattle.std.specs.Prelude.{◌≡◌, ◌++◌, Some, length, IfOk, OnOk};
ghost use Rattle.section_steps.specs.Sections as spec;
ghost use Rattle.section_steps.specs.Views.{laid_of, state_of};
ghost use Rattle.symbol_definitions.specs.Definitions.{said_of_name};

use crate::labels::define_new;
use crate::places::value_at;
use crate::{Laid, Left, State};
use hl_base::{Attr, Name, OutOfMemory};
use note_rows::Row;
use std::alloc::Global;
use trace_values::{Reloc, SectionId};

/// What the name of a section means.
const SECTION: Attr = Attr {
    letter: b'J',
    length: 1,
};

/// The first byte of the section of a number.
pub(crate) fn first_byte(number: u32) -> Reloc
    ensures { result ≡ spec.first_byte number }
{
    Reloc {
        section: Some(SectionId(number)),
        value: 0,
    }
}

/// The first byte of the section that begins next. An `Err` comes where 32 bits do not count the sections.
fn next_section(state: &State) -> Result<Reloc, OutOfMemory>
    ensures { IfOk result (λ value. value ≡ spec.first_byte (length (state_of state.now).sections.spans)) }
{
    match u32::try_from(state.sections.count()) {
        Ok(number) => Ok(first_byte(number)),
        Err(_) => Err(OutOfMemory),
    }
}

/// The section of a name begins, if the name is free, and the name is its symbol.
#[tactic(auto, unfolding(crate::specs::Sections::begun, crate::specs::Sections::begun_if_new))]
fn begin(
    alloc: Global,
    state: &mut State,
    name: Name,
    dummy: bool,
    rows: &mut Vec<Row>,
) -> Result<(), OutOfMemory>
    ensures behind { OnOk result (state_of state.new ≡ spec.begun_if_new name dummy (state_of state.old)) }
    ensures said { OnOk result (rows.new.items ≡ rows.old.items ++ said_of_name (state_of state.old).symbols name) }
{
    let value = next_section(state)?;
    let entered = name.copy();
    if define_new(alloc, &mut state.symbols, name, value, SECTION, rows)? {
        state.sections.enter(alloc, entered.text(), dummy)?;
    }
    Ok(())
}

/// The section of a name is resumed or begins.
#[tactic(auto, unfolding(crate::specs::Sections::named_behind, crate::specs::Sections::said_of_section))]
fn enter_named(
    alloc: Global,
    state: &mut State,
    name: Name,
    dummy: bool,
    rows: &mut Vec<Row>,
) -> Result<(), OutOfMemory>
    ensures behind { OnOk result (state_of state.new ≡ spec.named_behind name dummy (state_of state.old)) }
    ensures said { OnOk result (rows.new.items ≡ rows.old.items ++ spec.said_of_section name (state_of state.old)) }
{
    if state.sections.named(name.text()).is_some() {
        return state.sections.enter(alloc, name.text(), dummy);
    }
    begin(alloc, state, name, dummy, rows)
}

/// The section of a label, or the unnamed one, is resumed or begins.
fn enter(
    alloc: Global,
    state: &mut State,
    label: Option<Name>,
    dummy: bool,
    rows: &mut Vec<Row>,
) -> Result<(), OutOfMemory>
    ensures behind { OnOk result (state_of state.new ≡ spec.section_behind label dummy (state_of state.old)) }
    ensures said { OnOk result (rows.new.items ≡ rows.old.items ++ spec.said_of_entering label (state_of state.old)) }
{
    match label {
        Some(name) => enter_named(alloc, state, name, dummy, rows),
        None => state.sections.enter(alloc, "", dummy),
    }
}

/// A section is resumed or begins.
#[tactic(auto, unfolding(crate::specs::Sections::section_laid))]
pub(crate) fn section(
    alloc: Global,
    state: &mut State,
    label: Option<Name>,
    dummy: bool,
) -> Result<Laid, OutOfMemory>
    ensures behind { OnOk result (state_of state.new ≡ spec.section_behind label dummy (state_of state.old)) }
    ensures laid { IfOk result (λ laid. laid_of laid ≡ spec.section_laid label dummy (state_of state.old)) }
{
    let mut said_of_symbols = Vec::new(alloc);
    enter(alloc, state, label, dummy, &mut said_of_symbols)?;
    let place = state.sections.here();
    Ok(Laid {
        place,
        bytes: 0,
        here: value_at(place)?,
        uses: Vec::new(alloc),
        said: Vec::new(alloc),
        said_of_symbols,
        left: Left::Nothing,
    })
}
