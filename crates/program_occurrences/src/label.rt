//! Labels of calls that define a symbol.
ghost use Rattle.std.specs.Prelude.{◌≡◌, IfOk, OnOk};
ghost use Rattle.std.specs.List.{fold};
ghost use Rattle.std.specs.Option.{option_copied, option_map};
ghost use Rattle.std.specs.Str.{chars};
ghost use Rattle.standing_occurrences.specs.Standing.{with_first};
ghost use Rattle.text_lists.specs.Lists.{IsWhole};
ghost use Rattle.running_calls.specs.Calls.{held};
ghost use Rattle.program_occurrences.specs.Labels as labels;

use crate::counting::short_count;
use hl_base::{Name, Origin, OutOfMemory, PathId};
use hlasm_statements::{Field, Statement};
use running_calls::{RunningCall, RunningCalls};
use standing_occurrences::Standing;
use statement_names::{NameKind, WrittenName};
use statement_occurrences::{Naming, occurrence_of};
use text_lists::TextLists;
use trace_values::{Entity, Role};

/// Whether a text has an ampersand.
pub(crate) fn has_ampersand(text: &str) -> bool
    ensures { result ≡ labels.has_ampersand (chars text.now) }
{
    text.chars().any(|c| c == '&')
}

/// Whether the label of a statement is written as this symbol.
fn is_written(statement: &Statement, name: &Name) -> bool
    ensures { result ≡ labels.is_written name.now statement.now }
{
    match Name::read(statement.label.as_str()) {
        Some(label) => name.text() == label.text(),
        None => false,
    }
}

/// Whether the label of the statement at a place is.
fn is_labelled(texts: &TextLists, origin: Origin, name: &Name) -> bool
    ensures { result ≡ labels.is_labelled texts.now name.now origin }
{
    match texts.line_at(origin) {
        Some(line) => is_written(line.statement(), name),
        None => false,
    }
}

/// Whether the label of the statement of the call of a level is.
fn is_call_labelled(texts: &TextLists, calls: &RunningCalls, level: u32, name: &Name) -> bool
    ensures { result ≡ labels.is_call_labelled texts.now name.now (held calls.now level) }
{
    match calls.at(level) {
        Some(call) => is_labelled(texts, call.at, name),
        None => false,
    }
}

/// Where the statement of the innermost of so many calls stands whose label is written as this symbol.
fn labelled_call(texts: &TextLists, calls: &RunningCalls, count: u32, name: &Name) -> Option<Origin>
    ensures { result ≡ labels.labelled_call texts.now name.now (held calls.now) count }
{
    let mut level = count;
    while level > 0 {
        level -= 1;
        if is_call_labelled(texts, calls, level, name) {
            return place_of(calls.at(level));
        }
    }
    None
}

/// Where a call is.
fn place_of(call: Option<&RunningCall>) -> Option<Origin>
    ensures { result ≡ option_map labels.place_in (option_copied call.entry) }
{
    match call {
        Some(call) => Some(call.at),
        None => None,
    }
}

/// The label of a statement as this symbol.
fn label_name(statement: &Statement, name: &Name) -> Result<WrittenName, OutOfMemory>
    ensures { IfOk result (λ label. label ≡ labels.label_name statement.now name.now) }
{
    let count = short_count(statement.label.as_str())?;
    Ok(WrittenName {
        kind: NameKind::Label,
        field: Field::Label,
        at: 0,
        count,
        name: name.copy(),
    })
}

/// Adds the label of a statement of a path, if it has one, as the definition of this symbol.
fn push_label(
    path: PathId,
    statement: &Statement,
    name: &Name,
    kept: &mut Standing,
) -> Result<(), OutOfMemory>
    requires { IsWhole statement.now }
    ensures { OnOk result (kept.new ≡ fold with_first kept.old (labels.label_of path statement.now name.now)) }
{
    let label = label_name(statement, name)?;
    if label.count == 0 {
        return Ok(());
    }
    let naming = Naming {
        entity: Entity::Symbol(name.copy()),
        defines: true,
        role: Role::Plain,
    };
    kept.push(occurrence_of(path, statement, &label, naming))?;
    Ok(())
}

/// The same of the statement at a place.
fn push_label_at(
    texts: &TextLists,
    origin: Origin,
    name: &Name,
    kept: &mut Standing,
) -> Result<(), OutOfMemory>
    ensures { OnOk result (kept.new ≡ fold with_first kept.old (labels.label_at texts.now name.now origin)) }
{
    match texts.line_at(origin) {
        Some(line) => push_label(origin.path, line.statement(), name, kept),
        None => Ok(()),
    }
}

/// Adds the label of the innermost of so many calls that is written as the symbol which a statement within them, whose label is
/// written with an ampersand, defines first of all.
pub(crate) fn push_call_label(
    texts: &TextLists,
    calls: &RunningCalls,
    count: u32,
    statement: &Statement,
    first: &Option<Name>,
    kept: &mut Standing,
) -> Result<(), OutOfMemory>
    ensures { OnOk result (kept.new ≡ fold with_first kept.old (labels.of_calls texts.now (held calls.now) count statement.now first.now)) }
{
    let Some(name) = first else {
        return Ok(());
    };
    if !has_ampersand(statement.label.as_str()) {
        return Ok(());
    }
    match labelled_call(texts, calls, count, name) {
        Some(origin) => push_label_at(texts, origin, name, kept),
        None => Ok(()),
    }
}
