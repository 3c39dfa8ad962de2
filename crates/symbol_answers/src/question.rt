//! Which occurrence a question means, and what belongs to it.
ghost use Rattle.std.specs.Prelude.{◌≡◌};
ghost use Rattle.std.specs.Option.{option_copied};
ghost use Rattle.symbol_answers.specs.Questions as questions;

use crate::entity::is_same_entity;
use document_store::{DocumentStore, MemberText};
use hl_base::{PathId, Position};
use trace_values::{Entity, Occurrence};

/// The first column that is no part of a statement.
const BEHIND_COLUMNS: u32 = 72;

/// Whether an occurrence holds a column of a line of a path.
fn holds(one: &Occurrence, path: PathId, place: (u32, u32)) -> bool
    ensures { result ≡ questions.holds path.0 place one.now }
{
    one.path.0 == path.0
        && one.line == place.0
        && one.from <= place.1
        && place.1 < one.to.min(BEHIND_COLUMNS)
}

/// The first occurrence that holds a column of a line of a path.
fn at_place(occurrences: &[Occurrence], path: PathId, place: (u32, u32)) -> Option<&Occurrence>
    ensures { option_copied result ≡ questions.at_place occurrences.now path.0 place }
{
    occurrences.iter().find(|one| holds(one, path, place))
}

/// The line and the column that a position means in the text that is present at a path.
fn place_asked(store: &DocumentStore, path: PathId, at: Position) -> Option<(u32, u32)>
    ensures { result ≡ questions.place_asked store.now.store path.0 at }
{
    match store.present(path) {
        Some(MemberText::File(_)) => Some(store.column(path, at)),
        Some(MemberText::Unreadable) => None,
        None => None,
    }
}

/// The occurrence that a question means.
pub(crate) fn asked<'a>(
    store: &DocumentStore,
    occurrences: &'a [Occurrence],
    path: PathId,
    at: Position,
) -> Option<&'a Occurrence>
    ensures { option_copied result ≡ questions.asked store.now.store occurrences.now path.0 at }
{
    match place_asked(store, path, at) {
        Some(place) => at_place(occurrences, path, place),
        None => None,
    }
}

/// Whether something is defined at an occurrence.
fn is_definition(one: &Occurrence, entity: &Entity) -> bool
    ensures { result ≡ questions.is_definition entity.now one.now }
{
    one.defines && is_same_entity(&one.entity, entity)
}

/// Where it is defined first.
pub(crate) fn definition_of<'a>(
    occurrences: &'a [Occurrence],
    entity: &Entity,
) -> Option<&'a Occurrence>
    ensures { option_copied result ≡ questions.definition_of occurrences.now entity.now }
{
    occurrences.iter().find(|one| is_definition(one, entity))
}

/// Whether it is named there, as it is wanted.
pub(crate) fn is_reference(one: &Occurrence, entity: &Entity, declarations: bool) -> bool
    ensures { result ≡ questions.is_reference entity.now declarations one.now }
{
    is_same_entity(&one.entity, entity) && (declarations || !one.defines)
}
