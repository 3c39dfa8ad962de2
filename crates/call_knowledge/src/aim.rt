//! What SETx aims at.
ghost use Rattle.std.specs.Prelude.{◌≡◌, Some, false};
ghost use Rattle.call_knowledge.specs.Changes as changes;
ghost use Rattle.call_knowledge.specs.Knowledge as knowledge;
ghost use Rattle.call_knowledge.specs.Views.{meaning_of};
ghost use Rattle.set_symbols.specs.Table as table;

use crate::meaning::Meaning;
use hl_base::{SetKind, SetValue};
use set_symbols::{Declared, LAST_ELEMENT};

/// What SETx aims at: a symbol of another type, a system variable symbol among them; an element that is not there; or a
/// place of a local or of a global SET symbol, which is 0 where it has no subscript.
#[derive(Clone, Copy, Debug, PartialEq, Eq)]
pub enum Aim {
    OtherType,
    NoPlace,
    Local(u32),
    Global(u32),
}

/// The type of a symbol that holds a value.
pub(crate) fn kind_of(value: &SetValue) -> SetKind
    ensures { result ≡ table.kind_of value.now }
{
    match value {
        SetValue::A(_) => SetKind::A,
        SetValue::B(_) => SetKind::B,
        SetValue::C(_) => SetKind::C,
    }
}

/// Whether two types are one.
fn same_kind(one: SetKind, other: SetKind) -> bool
    ensures { result ≡ changes.same_kind one other }
{
    match one {
        SetKind::A => matches!(other, SetKind::A),
        SetKind::B => matches!(other, SetKind::B),
        SetKind::C => matches!(other, SetKind::C),
    }
}

/// The element of this number, if there is one.
pub(crate) fn place_of(element: u32) -> Option<u32>
    ensures { result ≡ table.place (Some element) }
{
    if element == 0 || element > LAST_ELEMENT {
        return None;
    }
    Some(element)
}

/// What is aimed at in a place, if there is one.
fn aim_at(global: bool, place: Option<u32>) -> Aim
    ensures { result ≡ changes.aim_at global place }
{
    match place {
        None => Aim::NoPlace,
        Some(at) => {
            if global {
                return Aim::Global(at);
            }
            Aim::Local(at)
        }
    }
}

/// The place of a symbol that is not there.
fn fresh_aim(element: Option<u32>) -> Aim
    ensures { result ≡ changes.aim_at false (table.place element) }
{
    match element {
        None => Aim::Local(0),
        Some(n) => aim_at(false, place_of(n)),
    }
}

/// A place of a symbol without a subscript.
fn scalar_aim(declared: Declared, element: Option<u32>, kind: SetKind) -> Aim
    ensures { result ≡ changes.aim_by (knowledge.Scalar declared) element kind }
{
    if !same_kind(declared.kind, kind) {
        return Aim::OtherType;
    }
    match element {
        None => aim_at(declared.global, Some(0)),
        Some(_) => Aim::NoPlace,
    }
}

/// A place of a symbol with a subscript.
fn array_aim(declared: Declared, element: Option<u32>, kind: SetKind) -> Aim
    ensures { result ≡ changes.aim_by (knowledge.Array declared) element kind }
{
    if !same_kind(declared.kind, kind) {
        return Aim::OtherType;
    }
    match element {
        None => Aim::NoPlace,
        Some(n) => aim_at(declared.global, place_of(n)),
    }
}

/// What SETx of a type aims at in a symbol that means this.
pub(crate) fn aim_by(meaning: Meaning<'_>, element: Option<u32>, kind: SetKind) -> Aim
    ensures { result ≡ changes.aim_by (meaning_of meaning.entry) element kind }
{
    match meaning {
        Meaning::Unknown => fresh_aim(element),
        Meaning::System(_) => Aim::OtherType,
        Meaning::Scalar(declared) => scalar_aim(declared, element, kind),
        Meaning::Array(declared) => array_aim(declared, element, kind),
    }
}
