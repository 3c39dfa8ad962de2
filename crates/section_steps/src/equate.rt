//! EQU.
ghost use Rattle.std.specs.Prelude.{◌≡◌, ◌++◌, IfOk, OnOk};
ghost use Rattle.std.specs.Option.{option_map};
ghost use Rattle.constant_grammar.specs.Views.{tree_in};
ghost use Rattle.layout_statements.specs.Views.{equate_of, reading_of};
ghost use Rattle.ordinary_symbols.specs.Shown as symbol_views;
ghost use Rattle.ordinary_symbols.specs.Table.{known};
ghost use Rattle.section_steps.specs.Equates as spec;
ghost use Rattle.section_steps.specs.Views.{laid_of, state_of};

use crate::places::value_at;
use crate::{Laid, Left, State};
use constant_expressions::told;
use constant_grammar::Formula;
use constant_operands::Told;
use hl_base::{Name, OutOfMemory};
use layout_statements::{Equate, Reading};
use note_rows::Row;
use ordinary_symbols::Symbols;
use std::alloc::Global;
use symbol_definitions::{Equating, equate as define_equated, equate_unread};
use trace_values::Reloc;

/// The greatest length that counts.
const MOST_BYTES: u32 = 65_535;

/// A length that counts.
fn counted_number(number: i32) -> Option<u32>
    ensures { result ≡ spec.counted_number number }
{
    if number < 0 {
        return None;
    }
    let number = number as u32;
    if number <= MOST_BYTES {
        Some(number)
    } else {
        None
    }
}

/// The same of what an expression comes to.
fn counted(told: Told) -> Option<u32>
    ensures { result ≡ spec.counted told }
{
    match told {
        Told::Absolute(number) => counted_number(number),
        Told::Other | Told::Unknown => None,
    }
}

/// The length that is given at a place, if it counts.
fn counted_in(symbols: &Symbols, here: Option<Reloc>, length: &Option<Reading>) -> Option<u32>
    ensures { result ≡ spec.counted_in (known (symbol_views.table_of symbols.now)) here (option_map reading_of length.now) }
{
    match length {
        Some(Reading::Tree(formula)) => counted(told(symbols, here, &formula.tree)),
        Some(Reading::At(_)) | None => None,
    }
}

/// Says how much can be read of an expression that cannot.
pub(crate) fn push_unread(rows: &mut Vec<Row>, reading: &Reading) -> Result<(), OutOfMemory>
    ensures { OnOk result (rows.new.items ≡ rows.old.items ++ spec.unread (reading_of reading.now)) }
{
    if let Reading::At(at) = reading {
        rows.push(Row::Unreadable(*at))?;
    }
    Ok(())
}

/// The same where there may be none.
pub(crate) fn push_some_unread(
    rows: &mut Vec<Row>,
    reading: &Option<Reading>,
) -> Result<(), OutOfMemory>
    ensures { OnOk result (rows.new.items ≡ rows.old.items ++ spec.some_unread (option_map reading_of reading.now)) }
{
    match reading {
        Some(reading) => push_unread(rows, reading),
        None => Ok(()),
    }
}

/// The expression, if it could be read.
fn some_tree(reading: Option<Reading>) -> Option<Formula>
    ensures { option_map tree_in result ≡ spec.some_tree (option_map reading_of reading) }
{
    match reading {
        Some(Reading::Tree(formula)) => Some(formula),
        Some(Reading::At(_)) | None => None,
    }
}

/// Defines the symbol of the label by what was read.
fn define_by(
    alloc: Global,
    symbols: &mut Symbols,
    value: Reading,
    equating: Equating,
    rows: &mut Vec<Row>,
) -> Result<(), OutOfMemory>
    ensures defined { OnOk result (symbol_views.table_of symbols.new
        ≡ spec.equated_by (reading_of value) equating (symbol_views.table_of symbols.old)) }
    ensures said { OnOk result (rows.new.items ≡ rows.old.items
        ++ spec.said_by (reading_of value) equating (symbol_views.table_of symbols.old)) }
{
    match value {
        Reading::Tree(formula) => define_equated(alloc, symbols, equating, formula, rows),
        Reading::At(_) => equate_unread(alloc, symbols, equating, rows),
    }
}

/// What EQU says beside its expression.
#[tactic(auto, unfolding(crate::specs::Equates::equating_with))]
fn equating(
    state: &State,
    length: &Option<Reading>,
    letter: u8,
    label: Option<Name>,
) -> Result<Equating, OutOfMemory>
    ensures { IfOk result (λ one. one ≡ spec.equating_with (option_map reading_of length.now) letter label (state_of state.now)) }
{
    let here = value_at(state.sections.here())?;
    Ok(Equating {
        length: counted_in(&state.symbols, here, length),
        label,
        letter,
        here,
    })
}

/// The place of the symbol that was defined, if one was, where there were so many before.
fn defined_behind(before: usize, symbols: &Symbols) -> Option<usize>
    ensures { result ≡ spec.defined_behind before (symbol_views.table_of symbols.now) }
{
    if before < symbols.count() {
        Some(before)
    } else {
        None
    }
}

/// EQU.
#[tactic(auto, unfolding(crate::specs::Equates::equated_at, crate::specs::Equates::equate_behind, crate::specs::Equates::equate_laid))]
pub(crate) fn equate(
    alloc: Global,
    state: &mut State,
    said: Equate,
    label: Option<Name>,
) -> Result<Laid, OutOfMemory>
    ensures behind { OnOk result (state_of state.new ≡ spec.equate_behind (equate_of said) label (state_of state.old)) }
    ensures laid { IfOk result (λ laid. laid_of laid ≡ spec.equate_laid (equate_of said) label (state_of state.old)) }
{
    let Equate {
        value,
        length,
        letter,
    } = said;
    let place = state.sections.here();
    let before = state.symbols.count();
    let equating = equating(state, &length, letter, label)?;
    let mut said = Vec::new(alloc);
    push_unread(&mut said, &value)?;
    push_some_unread(&mut said, &length)?;
    let mut said_of_symbols = Vec::new(alloc);
    define_by(
        alloc,
        &mut state.symbols,
        value,
        equating,
        &mut said_of_symbols,
    )?;
    Ok(Laid {
        place,
        bytes: 0,
        here: value_at(place)?,
        uses: Vec::new(alloc),
        said,
        said_of_symbols,
        left: Left::Equated(defined_behind(before, &state.symbols), some_tree(length)),
    })
}
