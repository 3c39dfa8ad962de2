//! Statements that are laid out one after the other.
ghost use Rattle.std.specs.Prelude.{◌≡◌, ◌++◌, ◌∷◌, [], map, IfOk, OnOk};
ghost use Rattle.std.specs.List.{list_any};
ghost use Rattle.section_steps.specs.StatementViews.{statement_of as layout_statement_of};
ghost use Rattle.section_layout.specs.Views.{lines_of, met_of};
ghost use Rattle.section_layout.specs.Walks as spec;
ghost use Rattle.section_steps.specs.Steps as steps;
ghost use Rattle.section_steps.specs.Views.{laid_of, state_of};

use crate::StatementLayout;
use hl_base::{Line, OutOfMemory};
use note_rows::Row;
use section_steps::layout_statements::LayoutStatement;
use section_steps::{Laid, State};
use std::alloc::Global;

/// A statement that is laid out, with so many symbols behind it, before it is judged.
fn met(laid: Laid, symbols: usize) -> StatementLayout
    ensures { met_of result ≡ record { laid = laid_of laid; symbols = symbols } }
{
    let Laid {
        place,
        bytes,
        here,
        uses,
        said,
        said_of_symbols,
        left,
    } = laid;
    StatementLayout {
        place,
        bytes,
        here,
        uses,
        symbols,
        rows: said,
        said_of_symbols,
        left,
    }
}

/// Adds a statement behind others. Room is asked for by itself, so that no answer has to hold a statement that was refused.
fn push(all: &mut Vec<StatementLayout>, one: StatementLayout) -> Result<(), OutOfMemory>
    ensures { OnOk result (all.new.items ≡ all.old.items ++ one ∷ []) }
{
    all.reserve(1)?;
    all.push_reserved(one);
    Ok(())
}

/// Lays out a statement behind others.
#[tactic(auto, using(crate::proofs::Maps::mapped_push))]
fn lay(
    alloc: Global,
    state: &mut State,
    statement: LayoutStatement,
    all: &mut Vec<StatementLayout>,
) -> Result<(), OutOfMemory>
    ensures behind { OnOk result (state_of state.new ≡ steps.behind (layout_statement_of statement) (state_of state.old)) }
    ensures met { OnOk result (map met_of all.new.items
        ≡ map met_of all.old.items ++ spec.met_of_read (layout_statement_of statement) (state_of state.old) ∷ []) }
{
    match state.step(alloc, statement) {
        Ok(laid) => {
            let symbols = state.symbols.count();
            push(all, met(laid, symbols))
        }
        Err(fault) => Err(fault),
    }
}

/// Lays out the statement of a line behind others.
#[tactic(auto, unfolding(crate::specs::Walks::read, crate::specs::Walks::met, crate::specs::Walks::state_behind))]
fn meet(
    alloc: Global,
    state: &mut State,
    line: &Line,
    all: &mut Vec<StatementLayout>,
) -> Result<(), OutOfMemory>
    ensures behind { OnOk result (state_of state.new ≡ spec.state_behind line.now (state_of state.old)) }
    ensures met { OnOk result (map met_of all.new.items ≡ map met_of all.old.items ++ spec.met line.now (state_of state.old) ∷ []) }
{
    match LayoutStatement::read(alloc, line) {
        Ok(statement) => lay(alloc, state, statement, all),
        Err(fault) => Err(fault),
    }
}

/// Lays out the statements of some lines.
#[tactic(auto, using(crate::proofs::Maps::next_mapped))]
pub(crate) fn meet_all(
    alloc: Global,
    state: &mut State,
    mut lines: &[&Line],
) -> Result<Vec<StatementLayout>, OutOfMemory>
    ensures behind { OnOk result (state_of state.new ≡ spec.all_behind (lines_of lines.entry.now) (state_of state.old)) }
    ensures met { IfOk result (λ all. map met_of all.items ≡ spec.all_met (lines_of lines.entry.now) (state_of state.old)) }
{
    let mut all = Vec::with_capacity(alloc, lines.len())?;
    while let [line, rest @ ..] = lines {
        meet(alloc, state, line, &mut all)?;
        lines = rest;
    }
    Ok(all)
}

/// Whether a row says that the section gets too long.
fn says_too_long(row: &Row) -> bool
    ensures { result ≡ spec.says_too_long row.now }
{
    match row {
        Row::SectionTooLong => true,
        _ => false,
    }
}

/// Whether that is said.
fn is_said(rows: &[Row]) -> bool
    ensures { result ≡ list_any spec.says_too_long rows.now }
{
    rows.iter().any(|row| says_too_long(row))
}

/// Adds rows behind others, unless it is said already that the section gets too long.
#[tactic(auto, unfolding(crate::specs::Walks::said_once))]
fn say_once(said: &mut Vec<Row>, rows: &mut Vec<Row>) -> Result<(), OutOfMemory>
    ensures { OnOk result (said.new.items ≡ spec.said_once said.old.items rows.old.items) }
{
    if is_said(said.as_slice()) {
        return Ok(());
    }
    said.append(rows)?;
    Ok(())
}

/// Of the place of the last statement this is said too.
#[tactic(auto, using(crate::proofs::Lasts::said_of_last))]
pub(crate) fn say_of_last(
    all: &mut Vec<StatementLayout>,
    mut rows: Vec<Row>,
) -> Result<(), OutOfMemory>
    ensures { OnOk result (map met_of all.new.items ≡ spec.also_said_of_last rows.items (map met_of all.old.items)) }
{
    if let Some(mut last) = all.pop() {
        say_once(&mut last.rows, &mut rows)?;
        push(all, last)?;
    }
    Ok(())
}
