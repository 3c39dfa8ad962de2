//! Variable symbols in a statement.
ghost use Rattle.std.specs.Prelude.{◌≡◌};
ghost use Rattle.std.specs.List.{list_any};
ghost use Rattle.statement_occurrences.specs.Named as named;
ghost use Rattle.statement_occurrences.specs.Views.{circumstances_of};

use crate::naming::Naming;
use crate::surroundings::Surroundings;
use hlasm_statements::Field;
use statement_names::{NameKind, WrittenName};
use trace_values::Entity;

/// Whether two fields are the same.
fn is_same_field(one: Field, other: Field) -> bool
    ensures { result ≡ named.is_same_field one other }
{
    match one {
        Field::Label => matches!(other, Field::Label),
        Field::Op => matches!(other, Field::Op),
        Field::Operands => matches!(other, Field::Operands),
    }
}

/// Whether a name is that of a variable symbol.
fn is_variable(kind: NameKind) -> bool
    ensures { result ≡ named.is_variable kind }
{
    matches!(kind, NameKind::Variable)
}

/// Whether a name is the variable symbol of another one, in the same field.
fn is_again(name: &WrittenName, earlier: &WrittenName) -> bool
    ensures { result ≡ named.is_again name.now earlier.now }
{
    is_variable(earlier.kind)
        && is_same_field(earlier.field, name.field)
        && earlier.name.text() == name.name.text()
}

/// Whether a variable symbol stands among these names of the statement, in the same field.
fn is_repeated(name: &WrittenName, earlier: &[WrittenName]) -> bool
    ensures { result ≡ list_any (named.is_again name.now) earlier.now }
{
    earlier.iter().any(|other| is_again(name, other))
}

/// Whether a variable symbol has its meaning of this place.
fn is_given_here(s: &Surroundings<'_>, earlier: &[WrittenName], name: &WrittenName) -> bool
    ensures { result ≡ named.is_given_here s.now.call.now earlier.now name.now }
{
    s.call.meaning(&name.name).is_none() && !is_repeated(name, earlier)
}

/// What a variable symbol names.
pub(crate) fn variable(
    s: &Surroundings<'_>,
    earlier: &[WrittenName],
    name: &WrittenName,
) -> Option<Naming>
    ensures { result ≡ named.variable (circumstances_of s.now) earlier.now name.now }
{
    match s.call.meaning_at(name.field, name.at, s.item, &name.name) {
        Some(meaning) => Some(Naming {
            entity: Entity::Variable(meaning.scope, name.name.copy()),
            defines: is_given_here(s, earlier, name),
            role: meaning.role,
        }),
        None => None,
    }
}
