//! What names in texts name.
ghost use Rattle.std.specs.Prelude.{◌≡◌, ◌==◌, ◌&&◌};
ghost use Rattle.std.specs.Str.{bytes_eq};
ghost use Rattle.trace_values.specs.declared.occurrence.Entity.TheVariants as entity;
ghost use Rattle.symbol_answers.specs.Entities as entities;

use hl_base::{Name, Origin, PathId, SetKind};
use trace_values::{Entity, Scope};

fn is_same_kind(one: SetKind, other: SetKind) -> bool
    ensures { result ≡ entities.is_same_kind one other }
{
    matches!(
        (one, other),
        (SetKind::A, SetKind::A) | (SetKind::B, SetKind::B) | (SetKind::C, SetKind::C)
    )
}

fn is_same_origin(one: Origin, other: Origin) -> bool
    ensures { result ≡ entities.is_same_origin one other }
{
    one.path.0 == other.path.0 && one.line == other.line
}

fn is_same_scope(one: Scope, other: Scope) -> bool
    ensures { result ≡ entities.is_same_scope one other }
{
    match (one, other) {
        (Scope::Program, Scope::Program) => true,
        (Scope::Definition(one), Scope::Definition(other)) => is_same_origin(one, other),
        (Scope::Global(one), Scope::Global(other)) => is_same_kind(one, other),
        _ => false,
    }
}

fn is_same_name(one: &Name, other: &Name) -> bool
    ensures { result ≡ bytes_eq one.now other.now }
{
    one.text() == other.text()
}

fn is_symbol(name: &Name, other: &Entity) -> bool
    ensures { result ≡ entities.is_same_entity (entity.Symbol name.now) other.now }
{
    match other {
        Entity::Symbol(other) => is_same_name(name, other),
        _ => false,
    }
}

fn is_variable(scope: Scope, name: &Name, other: &Entity) -> bool
    ensures { result ≡ entities.is_same_entity (entity.Variable scope name.now) other.now }
{
    match other {
        Entity::Variable(within, other) => {
            is_same_scope(scope, *within) && is_same_name(name, other)
        }
        _ => false,
    }
}

fn is_sequence(scope: Scope, name: &Name, other: &Entity) -> bool
    ensures { result ≡ entities.is_same_entity (entity.Sequence scope name.now) other.now }
{
    match other {
        Entity::Sequence(within, other) => {
            is_same_scope(scope, *within) && is_same_name(name, other)
        }
        _ => false,
    }
}

fn is_macro(origin: Origin, name: &Name, other: &Entity) -> bool
    ensures { result ≡ entities.is_same_entity (entity.Macro origin name.now) other.now }
{
    match other {
        Entity::Macro(place, other) => is_same_origin(origin, *place) && is_same_name(name, other),
        _ => false,
    }
}

fn is_member(path: PathId, other: &Entity) -> bool
    ensures { result ≡ entities.is_same_entity (entity.Member path) other.now }
{
    match other {
        Entity::Member(other) => path.0 == other.0,
        _ => false,
    }
}

/// Whether two names in texts name the same.
pub(crate) fn is_same_entity(one: &Entity, other: &Entity) -> bool
    ensures { result ≡ entities.is_same_entity one.now other.now }
{
    match one {
        Entity::Symbol(name) => is_symbol(name, other),
        Entity::Variable(scope, name) => is_variable(*scope, name, other),
        Entity::Sequence(scope, name) => is_sequence(*scope, name, other),
        Entity::Macro(origin, name) => is_macro(*origin, name, other),
        Entity::Member(path) => is_member(*path, other),
    }
}
