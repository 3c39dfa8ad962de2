//! Addresses.
ghost use Rattle.std.specs.Prelude.{◌≡◌, ◌≤◌, ◌++◌, is_some, OnOk};
ghost use Rattle.constant_grammar.specs.Views.{tree_if};
ghost use Rattle.expression_grammar.specs.Spelling.{most_parts};
ghost use Rattle.expression_grammar.specs.Trees.{size};
ghost use Rattle.expression_grammar.specs.Views.{tree_of};
ghost use Rattle.expression_notes.specs.Repeating.{once_behind};
ghost use Rattle.machine_operands.specs.Views.{address_of, displacement_of};
ghost use Rattle.operand_checks.specs.Addresses as spec;
ghost use Rattle.operand_checks.specs.Settings.{setting_of};

use crate::Setting;
use crate::displacements::{displacement_note, displacements};
use crate::expressions::{push_fault, push_part, value_of};
use constant_grammar::Formula;
use expression_grammar::Expr;
use expression_notes::push_row;
use hl_base::OutOfMemory;
use instruction_table::Kind;
use machine_operands::{Address, Displacement};
use note_rows::Row;
use trace_values::Reloc;

/// Says what there is to say of a displacement that is an expression.
pub(crate) fn push_displacement(
    setting: &Setting<'_>,
    kind: Kind,
    is_based: bool,
    tree: &Expr,
    rows: &mut Vec<Row>,
) -> Result<(), OutOfMemory>
    requires { size (tree_of tree.now) ≤ most_parts }
    ensures { OnOk result (rows.new.items ≡ rows.old.items ++ once_behind rows.old.items (spec.said_of_displacement (setting_of setting.now) kind is_based (tree_of tree.now))) }
{
    match value_of(setting, tree) {
        Ok(place) => push_row(
            rows,
            displacement_note(setting.ranges, displacements(kind), is_based, place),
        ),
        Err(_) => push_fault(setting, tree, rows),
    }
}

/// The same of a literal at this place.
fn push_literal(
    setting: &Setting<'_>,
    kind: Kind,
    is_based: bool,
    place: Reloc,
    rows: &mut Vec<Row>,
) -> Result<(), OutOfMemory>
    ensures { OnOk result (rows.new.items ≡ rows.old.items ++ once_behind rows.old.items (spec.said_of_literal (setting_of setting.now) kind is_based place)) }
{
    push_row(
        rows,
        displacement_note(setting.ranges, displacements(kind), is_based, place),
    )
}

/// The same of a literal that has a place or none.
fn push_literal_if(
    setting: &Setting<'_>,
    kind: Kind,
    is_based: bool,
    place: Option<Reloc>,
    rows: &mut Vec<Row>,
) -> Result<(), OutOfMemory>
    ensures { OnOk result (rows.new.items ≡ rows.old.items ++ once_behind rows.old.items (spec.said_of_literal_if (setting_of setting.now) kind is_based place)) }
{
    match place {
        Some(place) => push_literal(setting, kind, is_based, place, rows),
        None => Ok(()),
    }
}

/// Says what there is to say of a displacement, which may be a literal at this place.
fn push_either(
    setting: &Setting<'_>,
    kind: Kind,
    is_based: bool,
    place: Option<Reloc>,
    displacement: &Displacement,
    rows: &mut Vec<Row>,
) -> Result<(), OutOfMemory>
    ensures { OnOk result (rows.new.items ≡ rows.old.items ++ once_behind rows.old.items (spec.said_of_either (setting_of setting.now) kind is_based place (displacement_of displacement.now))) }
{
    match displacement {
        Displacement::Expression(formula) => {
            push_displacement(setting, kind, is_based, &formula.tree, rows)
        }
        Displacement::Literal => push_literal_if(setting, kind, is_based, place, rows),
    }
}

/// What an index, a length or a register in its place is in an address of this kind.
fn first_kind(kind: Kind) -> Kind
    ensures { result ≡ spec.first_kind kind }
{
    match kind {
        Kind::VectorIndexed => Kind::VectorRegister,
        Kind::LengthTo256 => Kind::LengthTo256,
        Kind::LengthTo16 => Kind::LengthTo16,
        _ => Kind::Register,
    }
}

/// Says what there is to say of what stands for an index or a length in an address of this kind.
fn push_first(
    setting: &Setting<'_>,
    kind: Kind,
    first: &Option<Formula>,
    rows: &mut Vec<Row>,
) -> Result<(), OutOfMemory>
    ensures { OnOk result (rows.new.items ≡ rows.old.items ++ once_behind rows.old.items (spec.said_of_first (setting_of setting.now) kind (tree_if first.now))) }
{
    push_part(setting, first_kind(kind), first, rows)
}

/// Whether there is a base.
pub(crate) fn is_given(base: &Option<Formula>) -> bool
    ensures { result ≡ is_some (tree_if base.now) }
{
    match base {
        Some(_) => true,
        None => false,
    }
}

/// Says what there is to say of the displacement of an address.
fn push_front(
    setting: &Setting<'_>,
    kind: Kind,
    place: Option<Reloc>,
    address: &Address,
    rows: &mut Vec<Row>,
) -> Result<(), OutOfMemory>
    ensures { OnOk result (rows.new.items ≡ rows.old.items ++ once_behind rows.old.items (spec.said_of_front (setting_of setting.now) kind place (address_of address.now))) }
{
    let is_based = is_given(&address.base);
    push_either(setting, kind, is_based, place, &address.displacement, rows)
}

/// Says what there is to say of an address of this kind, whose literal, if it has one, has this place.
pub(crate) fn push_address(
    setting: &Setting<'_>,
    kind: Kind,
    place: Option<Reloc>,
    address: &Address,
    rows: &mut Vec<Row>,
) -> Result<(), OutOfMemory>
    ensures { OnOk result (rows.new.items ≡ rows.old.items ++ once_behind rows.old.items (spec.said_of_address (setting_of setting.now) kind place (address_of address.now))) }
{
    push_front(setting, kind, place, address, rows)?;
    push_first(setting, kind, &address.first, rows)?;
    push_part(setting, Kind::Register, &address.base, rows)
}
