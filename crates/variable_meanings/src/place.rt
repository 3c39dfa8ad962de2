//! Meanings that a statement gives at its own places.
ghost use Rattle.std.specs.Prelude.{◌≡◌, find, option_map};
ghost use Rattle.std.specs.Str.{bytes_eq};
ghost use Rattle.variable_meanings.specs.Meanings as meanings;

use crate::meaning::{Meaning, declared_meaning, set_meaning};
use hl_base::{Declaration, Name};
use hlasm_statements::Field;
use trace_values::{Scope, Setting, TraceItem};

/// Whether two names are the same.
fn is_same(name: &Name, other: &Name) -> bool
    ensures { result ≡ bytes_eq name.now other.now }
{
    name.text() == other.text()
}

/// What the first of some settings of this name gives it.
fn by_setting(own: Scope, settings: &[Setting], name: &Name) -> Option<Meaning>
    ensures { result ≡ option_map (meanings.set_meaning own) (find (meanings.sets name.now) settings.now) }
{
    for setting in settings {
        if is_same(name, &setting.name) {
            return Some(set_meaning(own, setting));
        }
    }
    None
}

/// What the first of some declarations of this name gives it.
fn by_declaration(own: Scope, declared: &[Declaration], name: &Name) -> Option<Meaning>
    ensures { result ≡ option_map (meanings.declared_meaning own) (find (meanings.declares name.now) declared.now) }
{
    for declaration in declared {
        if is_same(name, &declaration.name) {
            return Some(declared_meaning(own, declaration));
        }
    }
    None
}

/// The meaning that the statement of a point gives a symbol at a place of its fields, if it gives it one there: by a
/// declaration in the operands, or by a setting at the beginning of the name entry.
pub(crate) fn given(
    own: Scope,
    field: Field,
    at: u32,
    item: &TraceItem,
    name: &Name,
) -> Option<Meaning>
    ensures { result ≡ meanings.given own field at item.now name.now }
{
    match field {
        Field::Label if at == 0 => by_setting(own, item.locals.as_slice(), name),
        Field::Operands => by_declaration(own, item.declared.as_slice(), name),
        Field::Label | Field::Op => None,
    }
}
