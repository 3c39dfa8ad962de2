//! What a name of a statement names.
ghost use Rattle.std.specs.Prelude.{◌≡◌};
ghost use Rattle.std.specs.Option.{option_copied};
ghost use Rattle.variable_meanings.specs.Meanings.{own_scope};
ghost use Rattle.statement_occurrences.specs.Named as named;
ghost use Rattle.statement_occurrences.specs.Views.{circumstances_of};

use crate::surroundings::Surroundings;
use crate::variable::variable;
use hl_base::{Name, Origin, PathId};
use statement_listing::Listing;
use statement_names::{NameKind, WrittenName};
use trace_values::{Entity, Role, Scope};

/// What a name names, whether that is defined there, and what a variable symbol is.
#[derive(Drop)]
pub struct Naming {
    pub entity: Entity,
    pub defines: bool,
    pub role: Role,
}

/// A name that is no variable symbol.
fn plainly(entity: Entity, defines: bool) -> Option<Naming>
    ensures { result ≡ named.plainly entity defines }
{
    Some(Naming {
        entity,
        defines,
        role: Role::Plain,
    })
}

/// Where the sequence symbols of a call are known.
fn own_scope(definition: Option<Origin>) -> Scope
    ensures { result ≡ own_scope definition }
{
    match definition {
        Some(origin) => Scope::Definition(origin),
        None => Scope::Program,
    }
}

/// Whether a branch in a list finds a sequence symbol.
fn is_found(list: Option<&Listing>, name: &Name) -> bool
    ensures { result ≡ named.is_found (option_copied list.entry) name.now }
{
    match list {
        Some(list) => list.place_of(name).is_some(),
        None => false,
    }
}

/// An ordinary symbol in the operands.
fn symbol(s: &Surroundings<'_>, name: &Name) -> Option<Naming>
    ensures { result ≡ named.symbol (circumstances_of s.now) name.now }
{
    match s.item.line {
        Some(_) => plainly(Entity::Symbol(name.copy()), false),
        None => None,
    }
}

/// Whether a name is this one.
fn is_this(name: &Name, other: &Option<Name>) -> bool
    ensures { result ≡ named.is_this name.now other.now }
{
    match other {
        Some(other) => name.text() == other.text(),
        None => false,
    }
}

/// A label that is an ordinary symbol.
fn label(s: &Surroundings<'_>, name: &Name) -> Option<Naming>
    ensures { result ≡ named.label (circumstances_of s.now) name.now }
{
    if is_this(name, s.first) {
        return plainly(Entity::Symbol(name.copy()), true);
    }
    None
}

/// A sequence symbol that is the label.
fn sequence_label(s: &Surroundings<'_>, name: &Name) -> Option<Naming>
    ensures { result ≡ named.sequence_label (circumstances_of s.now) name.now }
{
    plainly(
        Entity::Sequence(own_scope(s.item.definition), name.copy()),
        true,
    )
}

/// A sequence symbol that is branched to.
fn sequence_reference(s: &Surroundings<'_>, name: &Name) -> Option<Naming>
    ensures { result ≡ named.sequence_reference (circumstances_of s.now) name.now }
{
    if is_found(s.list, name) {
        return plainly(
            Entity::Sequence(own_scope(s.item.definition), name.copy()),
            false,
        );
    }
    None
}

/// The operation.
fn operation(called: Option<Origin>, name: &Name) -> Option<Naming>
    ensures { result ≡ named.operation called name.now }
{
    match called {
        Some(origin) => plainly(Entity::Macro(origin, name.copy()), false),
        None => None,
    }
}

/// The operand of COPY.
fn member(file: Option<PathId>) -> Option<Naming>
    ensures { result ≡ named.member file }
{
    match file {
        Some(path) => plainly(Entity::Member(path), false),
        None => None,
    }
}

/// What a name names in a statement in which these names stand before it, if it names something.
pub(crate) fn naming_of(
    s: &Surroundings<'_>,
    earlier: &[WrittenName],
    name: &WrittenName,
) -> Option<Naming>
    ensures { result ≡ named.naming name.now.kind (circumstances_of s.now) earlier.now name.now }
{
    match name.kind {
        NameKind::Variable => variable(s, earlier, name),
        NameKind::Symbol => symbol(s, &name.name),
        NameKind::Label => label(s, &name.name),
        NameKind::SequenceLabel => sequence_label(s, &name.name),
        NameKind::SequenceReference => sequence_reference(s, &name.name),
        NameKind::Operation => operation(s.item.called, &name.name),
        NameKind::Member => member(s.member),
    }
}
