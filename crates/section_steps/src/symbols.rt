//! EXTRN, WXTRN and ENTRY.
ghost use Rattle.std.specs.Prelude.{◌≡◌, ◌++◌, map, IfOk, OnOk};
ghost use Rattle.layout_statements.specs.Views.{symbol_reading_of};
ghost use Rattle.section_steps.specs.Marks.{mark_behind};
ghost use Rattle.section_steps.specs.Symbols as spec;
ghost use Rattle.section_steps.specs.Views.{laid_of, state_of};

use crate::labels::{PLAIN, define_new};
use crate::mark::mark;
use crate::section::first_byte;
use crate::{Laid, Left, State};
use hl_base::{Attr, Name, OutOfMemory};
use layout_statements::ReadSymbol;
use note_rows::Row;
use std::alloc::Global;
use symbol_attributes::{OpMeaning, external};

/// The number of the section of the first external symbol, above all sections of an assembly.
const FIRST_EXTERNAL: u32 = 2_147_483_648;

/// The names of operands that are symbols; of the others it is said how much can be read of them.
fn names(
    alloc: Global,
    mut symbols: &[ReadSymbol],
    rows: &mut Vec<Row>,
) -> Result<Vec<Name>, OutOfMemory>
    ensures names { IfOk result (λ names. names.items ≡ spec.names_of (map symbol_reading_of symbols.entry.now)) }
    ensures said { OnOk result (rows.new.items ≡ rows.old.items ++ spec.unread_symbols (map symbol_reading_of symbols.entry.now)) }
{
    let mut names = Vec::new(alloc);
    while let [symbol, rest @ ..] = symbols {
        push(symbol, &mut names, rows)?;
        symbols = rest;
    }
    Ok(names)
}

/// The same of one operand.
fn push(symbol: &ReadSymbol, names: &mut Vec<Name>, rows: &mut Vec<Row>) -> Result<(), OutOfMemory>
    ensures names { OnOk result (names.new.items ≡ names.old.items ++ spec.name_one (symbol_reading_of symbol.now)) }
    ensures said { OnOk result (rows.new.items ≡ rows.old.items ++ spec.unread_one (symbol_reading_of symbol.now)) }
{
    match symbol {
        ReadSymbol::Name(name) => names.push(name.copy())?,
        ReadSymbol::At(at) => rows.push(Row::Unreadable(*at))?,
    }
    Ok(())
}

/// Defines an external symbol. An `Err` comes where 32 bits do not count their sections.
#[tactic(auto, unfolding(crate::specs::Symbols::external_behind, crate::specs::Symbols::said_of_external))]
fn define_external(
    alloc: Global,
    state: &mut State,
    name: &Name,
    attr: Attr,
    rows: &mut Vec<Row>,
) -> Result<(), OutOfMemory>
    ensures behind { OnOk result (state_of state.new ≡ spec.external_behind attr name.now (state_of state.old)) }
    ensures said { OnOk result (rows.new.items ≡ rows.old.items ++ spec.said_of_external name.now (state_of state.old)) }
{
    let Some(number) = FIRST_EXTERNAL.checked_add(state.externals) else {
        return Err(OutOfMemory);
    };
    let Some(behind) = state.externals.checked_add(1) else {
        return Err(OutOfMemory);
    };
    if define_new(
        alloc,
        &mut state.symbols,
        name.copy(),
        first_byte(number),
        attr,
        rows,
    )? {
        state.externals = behind;
    }
    Ok(())
}

/// Defines external symbols, in order.
fn define_externals(
    alloc: Global,
    state: &mut State,
    mut names: &[Name],
    attr: Attr,
    rows: &mut Vec<Row>,
) -> Result<(), OutOfMemory>
    ensures behind { OnOk result (state_of state.new ≡ spec.all_external attr names.entry.now (state_of state.old)) }
    ensures said { OnOk result (rows.new.items ≡ rows.old.items ++ spec.said_of_all attr names.entry.now (state_of state.old)) }
{
    while let [name, rest @ ..] = names {
        define_external(alloc, state, name, attr, rows)?;
        names = rest;
    }
    Ok(())
}

/// What the symbols of an operation mean.
fn external_attr(op: &OpMeaning) -> Attr
    ensures { result ≡ spec.external_attr op.now }
{
    match external(op) {
        Some(attr) => attr,
        None => PLAIN,
    }
}

/// EXTRN and WXTRN.
#[tactic(auto, unfolding(crate::specs::Symbols::externals_behind, crate::specs::Symbols::externals_laid, crate::specs::Marks::mark_laid))]
pub(crate) fn externals(
    alloc: Global,
    state: &mut State,
    op: &OpMeaning,
    symbols: &[ReadSymbol],
    label: Option<Name>,
) -> Result<Laid, OutOfMemory>
    ensures behind { OnOk result (state_of state.new ≡ spec.externals_behind op.now (map symbol_reading_of symbols.now) label
        (state_of state.old)) }
    ensures laid { IfOk result (λ laid. laid_of laid ≡ spec.externals_laid op.now (map symbol_reading_of symbols.now) label
        (state_of state.old)) }
{
    let mut said = Vec::new(alloc);
    let names = names(alloc, symbols, &mut said)?;
    let mut laid = mark(alloc, state, label, said, Left::Nothing)?;
    define_externals(
        alloc,
        state,
        names.as_slice(),
        external_attr(op),
        &mut laid.said_of_symbols,
    )?;
    Ok(laid)
}

/// ENTRY.
#[tactic(auto, unfolding(crate::specs::Symbols::entries_laid))]
pub(crate) fn entries(
    alloc: Global,
    state: &mut State,
    symbols: &[ReadSymbol],
    label: Option<Name>,
) -> Result<Laid, OutOfMemory>
    ensures behind { OnOk result (state_of state.new ≡ mark_behind label (state_of state.old)) }
    ensures laid { IfOk result (λ laid. laid_of laid ≡ spec.entries_laid (map symbol_reading_of symbols.now) label (state_of state.old)) }
{
    let mut said = Vec::new(alloc);
    let names = names(alloc, symbols, &mut said)?;
    mark(alloc, state, label, said, Left::Names(names))
}
