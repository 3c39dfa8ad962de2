//! Addresses in constants and literals.
ghost use Rattle.std.specs.Prelude.{◌≡◌, ◌++◌, map, OnOk};
ghost use Rattle.std.specs.Option.{option_map};
ghost use Rattle.constant_grammar.specs.Views.{element_of, optional_nominal_of, tree_if, tree_in};
ghost use Rattle.constant_operands.specs.Views.{operand_of};
ghost use Rattle.expression_notes.specs.Repeating.{once_behind};
ghost use Rattle.operand_checks.specs.Literals as spec;
ghost use Rattle.operand_checks.specs.Settings.{setting_of};

use crate::Setting;
use crate::addresses::{is_given, push_displacement};
use crate::expressions::push_part;
use constant_grammar::{Element, Formula, Nominal};
use constant_operands::ConstantOperand;
use hl_base::OutOfMemory;
use instruction_table::Kind;
use note_rows::Row;
use trace_values::Reloc;

/// Says what there is to say of a displacement before a base or none.
fn push_front(
    setting: &Setting<'_>,
    displacement: &Formula,
    base: &Option<Formula>,
    rows: &mut Vec<Row>,
) -> Result<(), OutOfMemory>
    ensures { OnOk result (rows.new.items ≡ rows.old.items ++ once_behind rows.old.items (spec.said_of_front (setting_of setting.now) (tree_in displacement.now) (tree_if base.now))) }
{
    push_displacement(
        setting,
        Kind::Based,
        is_given(base),
        &displacement.tree,
        rows,
    )
}

/// Says what there is to say of an address, and of its base.
fn push_based(
    setting: &Setting<'_>,
    displacement: &Formula,
    base: &Option<Formula>,
    rows: &mut Vec<Row>,
) -> Result<(), OutOfMemory>
    ensures { OnOk result (rows.new.items ≡ rows.old.items ++ once_behind rows.old.items (spec.said_of_based (setting_of setting.now) (tree_in displacement.now) (tree_if base.now))) }
{
    push_front(setting, displacement, base, rows)?;
    push_part(setting, Kind::Register, base, rows)
}

/// Says what there is to say of a value.
#[tactic(auto, unfolding(crate::specs::Literals::said_of_element))]
fn push_element(
    setting: &Setting<'_>,
    element: &Element,
    rows: &mut Vec<Row>,
) -> Result<(), OutOfMemory>
    ensures { OnOk result (rows.new.items ≡ rows.old.items ++ once_behind rows.old.items (spec.said_of_element (setting_of setting.now) (element_of element.now))) }
{
    match element {
        Element::Address(displacement, base) => push_based(setting, displacement, base, rows),
        Element::Expression(_) | Element::Symbol(_) => Ok(()),
    }
}

/// Says what there is to say of each value, in order.
#[tactic(auto, using(crate::proofs::Turns::elements_more))]
fn push_elements(
    setting: &Setting<'_>,
    elements: &[Element],
    rows: &mut Vec<Row>,
) -> Result<(), OutOfMemory>
    ensures { OnOk result (rows.new.items ≡ rows.old.items ++ once_behind rows.old.items (spec.said_of_elements (setting_of setting.now) (map element_of elements.now))) }
{
    for element in elements {
        push_element(setting, element, rows)?;
    }
    Ok(())
}

/// Says what there is to say of the values, if they stand in parentheses.
fn push_nominal(
    setting: &Setting<'_>,
    nominal: &Option<Nominal>,
    rows: &mut Vec<Row>,
) -> Result<(), OutOfMemory>
    ensures { OnOk result (rows.new.items ≡ rows.old.items ++ once_behind rows.old.items (spec.said_of_nominal (setting_of setting.now) (optional_nominal_of nominal.now))) }
{
    match nominal {
        Some(Nominal::Enclosed(elements)) => push_elements(setting, elements.as_slice(), rows),
        Some(Nominal::Quoted(_)) | None => Ok(()),
    }
}

/// Says what there is to say of the addresses in an operand of DC or DS, or in a literal, from left to right, behind what was
/// said of its statement before. An `Err` leaves only some of it said.
#[tactic(auto, unfolding(crate::specs::Literals::said_of_addresses))]
pub fn address_notes(
    setting: &Setting<'_>,
    operand: &ConstantOperand,
    rows: &mut Vec<Row>,
) -> Result<(), OutOfMemory>
    ensures { OnOk result (rows.new.items ≡ rows.old.items ++ once_behind rows.old.items (spec.said_of_addresses (setting_of setting.now) (operand_of operand.now))) }
{
    match &operand.constant {
        Some(constant) => push_nominal(setting, &constant.nominal, rows),
        None => Ok(()),
    }
}

/// The same of a literal, if it has a place.
pub(crate) fn push_within(
    setting: &Setting<'_>,
    place: Option<Reloc>,
    literal: &Option<Box<ConstantOperand>>,
    rows: &mut Vec<Row>,
) -> Result<(), OutOfMemory>
    ensures { OnOk result (rows.new.items ≡ rows.old.items ++ once_behind rows.old.items (spec.said_within (setting_of setting.now) place (option_map (λ one. operand_of one.value) literal.now))) }
{
    match place {
        Some(_) => match literal {
            Some(literal) => address_notes(setting, literal, rows),
            None => Ok(()),
        },
        None => Ok(()),
    }
}
