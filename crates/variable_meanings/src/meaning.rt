//! Meanings of variable symbols.
ghost use Rattle.std.specs.Prelude.{◌≡◌};
ghost use Rattle.macro_binding.specs.Prototypes.{is_system};
ghost use Rattle.trace_variables.specs.Values.{kind_of};
ghost use Rattle.variable_meanings.specs.Meanings as meanings;

use hl_base::{Declaration, Name, Origin, SetKind, SetValue};
use trace_values::{Role, Scope, Setting};

/// What a variable symbol means: where it is known, and what it is.
#[derive(Clone, Copy, Debug, PartialEq, Eq)]
pub struct Meaning {
    pub scope: Scope,
    pub role: Role,
}

/// Where the local symbols of a call are known: in the macro definition of this prototype, or in open code.
pub(crate) fn own_scope(definition: Option<Origin>) -> Scope
    ensures { result ≡ meanings.own_scope definition }
{
    match definition {
        Some(origin) => Scope::Definition(origin),
        None => Scope::Program,
    }
}

/// Whether a name is that of a system variable.
pub(crate) fn is_system(name: &Name) -> bool
    ensures { result ≡ is_system name.now }
{
    matches!(
        name.text(),
        "SYSNDX" | "SYSECT" | "SYSLIST" | "SYSMAC" | "SYSNEST" | "SYSPARM"
    )
}

/// Whether a name is that of a system variable that a call knows.
pub(crate) fn knows_system(definition: Option<Origin>, name: &Name) -> bool
    ensures { result ≡ meanings.knows_system definition name.now }
{
    match definition {
        None => name.text() == "SYSPARM",
        Some(_) => is_system(name),
    }
}

/// What a symbol means that is declared.
pub(crate) fn declared_meaning(own: Scope, declaration: &Declaration) -> Meaning
    ensures { result ≡ meanings.declared_meaning own declaration.now }
{
    if declaration.global {
        return Meaning {
            scope: Scope::Global(declaration.kind),
            role: Role::Plain,
        };
    }
    Meaning {
        scope: own,
        role: Role::Local(declaration.kind),
    }
}

/// The type of a symbol that holds a value.
fn kind_of(value: &SetValue) -> SetKind
    ensures { result ≡ kind_of value.now }
{
    match value {
        SetValue::A(_) => SetKind::A,
        SetValue::B(_) => SetKind::B,
        SetValue::C(_) => SetKind::C,
    }
}

/// What a local symbol means that is set and was not declared.
pub(crate) fn set_meaning(own: Scope, setting: &Setting) -> Meaning
    ensures { result ≡ meanings.set_meaning own setting.now }
{
    Meaning {
        scope: own,
        role: Role::Local(kind_of(&setting.value)),
    }
}
