//! What one value of a variable symbol is found by.
ghost use Rattle.std.specs.Prelude.{◌≡◌};
ghost use Rattle.trace_variables.specs.Values.{kind_of};
ghost use Rattle.trace_variables.specs.Seen.{seen_key, set_kind};

use crate::spelling::Spelling;
use hl_base::{Name, SetKind, SetValue};

/// The types of SET symbols in their order.
#[derive(Clone, Copy, PartialEq, Eq, PartialOrd, Ord)]
pub(crate) enum Kind {
    A,
    B,
    C,
}

/// The name of a variable, its type and its element, in the order in which variables are shown.
#[derive(PartialEq, Eq, PartialOrd, Ord, Drop)]
pub(crate) struct Key {
    pub(crate) name: Spelling,
    pub(crate) kind: Kind,
    pub(crate) element: u32,
}

impl Kind {
    pub(crate) fn of(kind: SetKind) -> Kind
        ensures { set_kind result ≡ kind }
    {
        match kind {
            SetKind::A => Kind::A,
            SetKind::B => Kind::B,
            SetKind::C => Kind::C,
        }
    }

    /// The type of a symbol that holds a value.
    pub(crate) fn of_value(value: &SetValue) -> Kind
        ensures { set_kind result ≡ kind_of value.now }
    {
        match value {
            SetValue::A(_) => Kind::A,
            SetValue::B(_) => Kind::B,
            SetValue::C(_) => Kind::C,
        }
    }
}

impl Key {
    /// It takes no memory.
    pub(crate) fn of(name: &Name, kind: Kind, element: u32) -> Key
        ensures { seen_key result ≡ record { name = name.now; kind = set_kind kind; element = element } }
    {
        Key {
            name: Spelling { name: name.copy() },
            kind,
            element,
        }
    }
}
