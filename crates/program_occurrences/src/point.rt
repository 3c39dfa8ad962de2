//! The occurrences of a point.
ghost use Rattle.std.specs.Prelude.{◌≡◌, OnOk};
ghost use Rattle.std.specs.List.{fold};
ghost use Rattle.standing_occurrences.specs.Standing.{with_first};
ghost use Rattle.text_lists.specs.Lists.{IsWhole};
ghost use Rattle.program_occurrences.specs.Occurrences as occurrences;
ghost use Rattle.program_occurrences.specs.Views.{situation_of};

use crate::known::running;
use crate::label::push_call_label;
use crate::operation::{is_entered, member_taken, used_by};
use crate::prototype::push_prototype_at;
use hl_base::{Name, OutOfMemory, PathId};
use hlasm_statements::Statement;
use running_calls::RunningCalls;
use standing_occurrences::Standing;
use statement_names::names_in;
use statement_occurrences::{Surroundings, push_occurrences};
use std::alloc::Global;
use text_lists::{DefinitionLists, TextLists};
use text_pool::Present;
use trace_values::{Entity, Occurrence, Role, TraceItem};
use variable_meanings::CallVariables;

/// What a point is, besides its item: how many calls stand round it, and the symbol that its label defines first of all.
#[derive(Drop)]
pub(crate) struct Met<'a> {
    pub(crate) level: u32,
    pub(crate) calls: &'a RunningCalls,
    pub(crate) variables: &'a CallVariables,
    pub(crate) first: Option<Name>,
}

/// The place at the start of a member.
fn start_of(path: PathId) -> Occurrence
    ensures { result ≡ occurrences.start_of path }
{
    Occurrence {
        path,
        line: 0,
        from: 1,
        to: 1,
        entity: Entity::Member(path),
        defines: true,
        role: Role::Plain,
    }
}

/// Adds the start of a member that was taken, if one was.
fn push_start(member: Option<PathId>, kept: &mut Standing) -> Result<(), OutOfMemory>
    ensures { OnOk result (kept.new ≡ fold with_first kept.old (occurrences.start_in member)) }
{
    match member {
        Some(path) => kept.push(start_of(path)),
        None => Ok(()),
    }
}

/// Adds the names of the prototype of the macro that was called, if one was entered.
fn push_called(
    alloc: Global,
    texts: &TextLists,
    item: &TraceItem,
    kept: &mut Standing,
) -> Result<(), OutOfMemory>
    ensures { OnOk result (kept.new ≡ fold with_first kept.old (occurrences.of_called texts.now item.now)) }
{
    match item.called {
        Some(origin) => {
            if is_entered(item) {
                return push_prototype_at(alloc, texts, origin, kept);
            }
            Ok(())
        }
        None => Ok(()),
    }
}

/// Adds the occurrences of the names of the statement of a point, which took this member.
fn push_names<'a>(
    alloc: Global,
    texts: &'a TextLists,
    definitions: &'a DefinitionLists,
    met: &'a Met<'a>,
    item: &'a TraceItem,
    statement: &Statement,
    member: Option<PathId>,
    kept: &mut Standing,
) -> Result<(), OutOfMemory>
    requires { IsWhole statement.now }
    ensures { OnOk result (kept.new ≡ fold with_first kept.old
        (occurrences.of_names_in texts.now definitions.now (situation_of met.now) item.now statement.now member)) }
{
    let names = names_in(alloc, statement, used_by(item, statement))?;
    let surroundings = Surroundings {
        list: running(texts, definitions, item),
        call: met.variables,
        item,
        first: &met.first,
        member,
    };
    let path = item.frames.origin().path;
    push_occurrences(&surroundings, path, statement, names.as_slice(), kept)?;
    Ok(())
}

/// Adds the occurrences of the statement of a point.
fn push_statement<'a, P: Present>(
    alloc: Global,
    texts: &'a TextLists,
    definitions: &'a DefinitionLists,
    present: &P,
    met: &'a Met<'a>,
    item: &'a TraceItem,
    statement: &Statement,
    kept: &mut Standing,
) -> Result<(), OutOfMemory>
    requires { IsWhole statement.now }
    ensures { OnOk result (kept.new ≡ fold with_first kept.old
        (occurrences.of_statement texts.now definitions.now (P.members present.now) (situation_of met.now) item.now statement.now)) }
{
    let member = member_taken(present, used_by(item, statement), item, statement);
    push_call_label(texts, met.calls, met.level, statement, &met.first, kept)?;
    push_names(
        alloc,
        texts,
        definitions,
        met,
        item,
        statement,
        member,
        kept,
    )?;
    push_called(alloc, texts, item, kept)?;
    push_start(member, kept)?;
    Ok(())
}

/// Adds the occurrences of a point.
pub(crate) fn push_point<'a, P: Present>(
    alloc: Global,
    texts: &'a TextLists,
    definitions: &'a DefinitionLists,
    present: &P,
    met: &'a Met<'a>,
    item: &'a TraceItem,
    kept: &mut Standing,
) -> Result<(), OutOfMemory>
    ensures { OnOk result (kept.new ≡ fold with_first kept.old
        (occurrences.of_point texts.now definitions.now (P.members present.now) (situation_of met.now) item.now)) }
{
    match texts.line_at(item.frames.origin()) {
        Some(line) => push_statement(
            alloc,
            texts,
            definitions,
            present,
            met,
            item,
            line.statement(),
            kept,
        ),
        None => Ok(()),
    }
}
