//! Keys as kept values.
ghost use Rattle.std.specs.Prelude.{◌≡◌, ◌↔◌, IfOk, IsTrue};
ghost use Rattle.hl_base.specs.declared.set.Key.TheVariants.{Global as GlobalKey, Op, Member, Sym, Look};
ghost use Rattle.kept_values.specs.Trees.{tree_number, number_from, mixed};
ghost use Rattle.kept_values.specs.Keys.{kind_number, key_tree};
ghost use Rattle.kept_values.specs.Lists.{list_tree};

use crate::Kept;
use crate::number::{bytes_number, mixed};
use crate::text::same_name;
use hl_base::{Key, Name, OutOfMemory, SetKind};
use std::alloc::Global;

fn kind_number(kind: SetKind) -> u64
    ensures { result ≡ kind_number kind }
{
    match kind {
        SetKind::A => 0,
        SetKind::B => 1,
        SetKind::C => 2,
    }
}

fn is_global(key: &Key, kind: SetKind, name: &Name, element: u32) -> bool
    ensures { IsTrue result ↔ (key.now ≡ GlobalKey kind name.now element) }
{
    match key {
        Key::Global(its_kind, its_name, its_element) => *its_kind == kind
            && *its_element == element
            && same_name(its_name, name),
        _ => false,
    }
}

fn is_op(key: &Key, name: &Name) -> bool
    ensures { IsTrue result ↔ (key.now ≡ Op name.now) }
{
    match key {
        Key::Op(its_name) => same_name(its_name, name),
        _ => false,
    }
}

fn is_member(key: &Key, name: &Name) -> bool
    ensures { IsTrue result ↔ (key.now ≡ Member name.now) }
{
    match key {
        Key::Member(its_name) => same_name(its_name, name),
        _ => false,
    }
}

fn is_sym(key: &Key, name: &Name) -> bool
    ensures { IsTrue result ↔ (key.now ≡ Sym name.now) }
{
    match key {
        Key::Sym(its_name) => same_name(its_name, name),
        _ => false,
    }
}

fn is_look(key: &Key, name: &Name) -> bool
    ensures { IsTrue result ↔ (key.now ≡ Look name.now) }
{
    match key {
        Key::Look(its_name) => same_name(its_name, name),
        _ => false,
    }
}

/// Whether two keys are one.
fn same_key(one: &Key, other: &Key) -> bool
    ensures { IsTrue result ↔ (one.now ≡ other.now) }
{
    match one {
        Key::Global(kind, name, element) => is_global(other, *kind, name, *element),
        Key::Op(name) => is_op(other, name),
        Key::Member(name) => is_member(other, name),
        Key::Sym(name) => is_sym(other, name),
        Key::Look(name) => is_look(other, name),
        Key::Sect => matches!(other, Key::Sect),
        Key::Nest => matches!(other, Key::Nest),
        Key::Parm => matches!(other, Key::Parm),
        Key::Counter => matches!(other, Key::Counter),
    }
}

/// The number of a global symbol.
fn global_number(kind: SetKind, name: &Name, element: u32) -> u64
    ensures { result ≡ number_from (mixed (mixed (mixed 0 0) (kind_number kind)) element) (list_tree name.now) }
{
    let start = mixed(mixed(mixed(0, 0), kind_number(kind)), u64::from(element));
    bytes_number(start, name.text().as_bytes())
}

/// The number of a key that names something.
fn named_number(sort: u64, name: &Name) -> u64
    ensures { result ≡ number_from (mixed 0 sort) (list_tree name.now) }
{
    bytes_number(mixed(0, sort), name.text().as_bytes())
}

impl Kept for Key {
    ghost code = { key_tree };

    ghost number_of = { tree_number };

    fn same(&self, other: &Self) -> bool {
        same_key(self, other)
    }

    fn number(&self) -> u64 {
        match self {
            Key::Global(kind, name, element) => global_number(*kind, name, *element),
            Key::Op(name) => named_number(1, name),
            Key::Member(name) => named_number(2, name),
            Key::Sym(name) => named_number(3, name),
            Key::Look(name) => named_number(4, name),
            Key::Sect => mixed(0, 5),
            Key::Nest => mixed(0, 6),
            Key::Parm => mixed(0, 7),
            Key::Counter => mixed(0, 8),
        }
    }

    fn copy(&self, _alloc: Global) -> Result<Self, OutOfMemory> {
        Ok(Key::copy(self))
    }
}
