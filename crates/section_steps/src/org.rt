//! ORG.
ghost use Rattle.std.specs.Prelude.{◌≡◌, ◌++◌, IfOk, OnOk};
ghost use Rattle.std.specs.Option.{option_map};
ghost use Rattle.constant_grammar.specs.Views.{tree_in};
ghost use Rattle.layout_statements.specs.Views.{reading_of};
ghost use Rattle.ordinary_symbols.specs.Shown as symbol_views;
ghost use Rattle.ordinary_symbols.specs.Table.{known};
ghost use Rattle.section_table.specs.Shown as section_views;
ghost use Rattle.section_table.specs.Spans as spans;
ghost use Rattle.section_table.specs.Tables as tables;
ghost use Rattle.section_steps.specs.Instructions.{too_long};
ghost use Rattle.section_steps.specs.Orgs as spec;
ghost use Rattle.section_steps.specs.Views as views;
ghost use Rattle.section_steps.specs.Views.{laid_of, state_of};

use crate::labels::{PLAIN, define_label};
use crate::places::value_at;
use crate::{Laid, Left, State};
use constant_grammar::Formula;
use hl_base::{Name, OutOfMemory};
use layout_statements::Reading;
use note_rows::Row;
use ordinary_symbols::{EvalFault, Symbols};
use section_table::{Place, SectionTable};
use std::alloc::Global;
use trace_values::{Reloc, SectionId};

/// Where ORG leads.
#[derive(Clone, Copy, Debug, PartialEq, Eq)]
pub(crate) enum Target {
    /// To the highest place where the counter stood.
    End,
    /// Its operand cannot be read behind so many characters.
    Unread(u32),
    /// A symbol of its operand has no value yet.
    Unknown,
    /// Its operand has no value.
    Nowhere,
    /// Out of the section.
    Outside,
    /// To an offset in the section.
    At(u32),
}

/// A number behind the front of the section.
fn target_at(number: i32) -> Target
    ensures { result ≡ spec.target_at number }
{
    if number < 0 {
        return Target::Outside;
    }
    Target::At(number as u32)
}

/// A number in a section, or in none, where the counter stands here.
fn target_in(section: Option<SectionId>, number: i32, place: Option<Place>) -> Target
    ensures { result ≡ spec.target_in section number place }
{
    match (section, place) {
        (Some(section), Some(place)) => {
            if section.0 as usize == place.section {
                target_at(number)
            } else {
                Target::Outside
            }
        }
        _ => Target::Outside,
    }
}

/// What a value leads to.
fn target_of(value: Result<Reloc, EvalFault>, place: Option<Place>) -> Target
    ensures { result ≡ spec.target_of value place }
{
    match value {
        Ok(found) => target_in(found.section, found.value, place),
        Err(_) => Target::Nowhere,
    }
}

/// What an expression leads to.
fn target_by(
    symbols: &Symbols,
    place: Option<Place>,
    formula: &Formula,
) -> Result<Target, OutOfMemory>
    ensures { IfOk result (λ target. target ≡ spec.target_by (known (symbol_views.table_of symbols.now)) place (tree_in formula.now)) }
{
    if symbols.first_unknown(&formula.tree).is_some() {
        return Ok(Target::Unknown);
    }
    let here = value_at(place)?;
    Ok(target_of(symbols.eval(&formula.tree, here), place))
}

/// What the operand of ORG leads to, if it has one.
fn leads_to(state: &State, to: &Option<Reading>) -> Result<Target, OutOfMemory>
    ensures { IfOk result (λ target. target ≡ spec.target (option_map reading_of to.now) (state_of state.now)) }
{
    match to {
        Some(Reading::Tree(formula)) => target_by(&state.symbols, state.sections.here(), formula),
        Some(Reading::At(at)) => Ok(Target::Unread(*at)),
        None => Ok(Target::End),
    }
}

/// The counter goes on at an offset, if the section does not get too long; else that is said.
fn go_to(sections: &mut SectionTable, at: u32, rows: &mut Vec<Row>) -> Result<(), OutOfMemory>
    ensures moved { OnOk result (section_views.table_of sections.new
        ≡ tables.changed (spans.org at) (section_views.table_of sections.old)) }
    ensures said { OnOk result (rows.new.items ≡ rows.old.items ++ too_long (tables.may_org at (section_views.table_of sections.old))) }
{
    if !sections.org(at) {
        rows.push(Row::SectionTooLong)?;
    }
    Ok(())
}

/// The counter goes on where ORG leads, and what there is to say is said.
fn go(sections: &mut SectionTable, target: Target, rows: &mut Vec<Row>) -> Result<(), OutOfMemory>
    ensures moved { OnOk result (section_views.table_of sections.new ≡ spec.moved target (section_views.table_of sections.old)) }
    ensures said { OnOk result (rows.new.items ≡ rows.old.items ++ spec.said_of target (section_views.table_of sections.old)) }
{
    match target {
        Target::End => sections.org_to_end(),
        Target::At(at) => go_to(sections, at, rows)?,
        Target::Unread(at) => rows.push(Row::Unreadable(at))?,
        Target::Unknown => rows.push(Row::UnknownValue)?,
        Target::Nowhere => {}
        Target::Outside => rows.push(Row::OutsideSection)?,
    }
    Ok(())
}

/// What an operand leaves, if there is one.
pub(crate) fn left_of(reading: Option<Reading>) -> Left
    ensures { views.left_of result ≡ spec.left_of (option_map reading_of reading) }
{
    match reading {
        Some(Reading::Tree(formula)) => Left::Expression(formula),
        Some(Reading::At(_)) | None => Left::Nothing,
    }
}

/// ORG.
#[tactic(auto, unfolding(crate::specs::Orgs::org_sections, crate::specs::Orgs::org_behind, crate::specs::Orgs::org_laid))]
pub(crate) fn org(
    alloc: Global,
    state: &mut State,
    to: Option<Reading>,
    label: Option<Name>,
) -> Result<Laid, OutOfMemory>
    ensures behind { OnOk result (state_of state.new ≡ spec.org_behind (option_map reading_of to) label (state_of state.old)) }
    ensures laid { IfOk result (λ laid. laid_of laid ≡ spec.org_laid (option_map reading_of to) label (state_of state.old)) }
{
    let here = value_at(state.sections.here())?;
    let target = leads_to(state, &to)?;
    let mut said = Vec::new(alloc);
    go(&mut state.sections, target, &mut said)?;
    let place = state.sections.here();
    let mut said_of_symbols = Vec::new(alloc);
    define_label(
        alloc,
        &mut state.symbols,
        label,
        place,
        PLAIN,
        &mut said_of_symbols,
    )?;
    Ok(Laid {
        place,
        bytes: 0,
        here,
        uses: Vec::new(alloc),
        said,
        said_of_symbols,
        left: left_of(to),
    })
}
