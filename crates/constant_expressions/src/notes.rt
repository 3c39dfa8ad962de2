//! What is said of the expressions of an operand.
ghost use Rattle.std.specs.Prelude.{◌≡◌, ◌++◌, map, OnOk};
ghost use Rattle.constant_grammar.specs.Views.{constant_of, element_of, optional_amount_of, optional_nominal_of};
ghost use Rattle.constant_operands.specs.Views.{operand_of};
ghost use Rattle.expression_notes.specs.Repeating.{once_behind};
ghost use Rattle.ordinary_symbols.specs.Shown.{table_of};
ghost use Rattle.ordinary_symbols.specs.Table.{known};
ghost use Rattle.constant_expressions.specs.Notes as spec;

use constant_grammar::{Amount, Constant, Element, Nominal};
use constant_operands::ConstantOperand;
use expression_notes::{Wanted, push_expression};
use hl_base::OutOfMemory;
use note_rows::Row;
use ordinary_symbols::Symbols;
use trace_values::Reloc;

/// Says what there is to say of a number.
fn push_amount(
    symbols: &Symbols,
    here: Option<Reloc>,
    amount: &Option<Amount>,
    rows: &mut Vec<Row>,
) -> Result<(), OutOfMemory>
    ensures { OnOk result (rows.new.items ≡ rows.old.items ++ once_behind rows.old.items (spec.said_of_amount (known (table_of symbols.now)) here (optional_amount_of amount.now))) }
{
    match amount {
        Some(Amount::Computed(formula)) => {
            push_expression(symbols, &formula.tree, here, Wanted::Number, rows)
        }
        Some(Amount::Decimal(_)) | None => Ok(()),
    }
}

/// Says what there is to say of a value. Of an address it is said where its operand is checked, and an external symbol needs no
/// definition.
fn push_element(
    symbols: &Symbols,
    here: Option<Reloc>,
    element: &Element,
    rows: &mut Vec<Row>,
) -> Result<(), OutOfMemory>
    ensures { OnOk result (rows.new.items ≡ rows.old.items ++ once_behind rows.old.items (spec.said_of_element (known (table_of symbols.now)) here (element_of element.now))) }
{
    match element {
        Element::Expression(formula) => {
            push_expression(symbols, &formula.tree, here, Wanted::Value, rows)
        }
        Element::Symbol(_) | Element::Address(_, _) => Ok(()),
    }
}

/// Says what there is to say of each value, in order.
fn push_elements(
    symbols: &Symbols,
    here: Option<Reloc>,
    elements: &[Element],
    rows: &mut Vec<Row>,
) -> Result<(), OutOfMemory>
    ensures { OnOk result (rows.new.items ≡ rows.old.items ++ once_behind rows.old.items (spec.said_of_elements (known (table_of symbols.now)) here (map element_of elements.now))) }
{
    for element in elements {
        push_element(symbols, here, element, rows)?;
    }
    Ok(())
}

/// Says what there is to say of the values, if they stand in parentheses.
fn push_nominal(
    symbols: &Symbols,
    here: Option<Reloc>,
    nominal: &Option<Nominal>,
    rows: &mut Vec<Row>,
) -> Result<(), OutOfMemory>
    ensures { OnOk result (rows.new.items ≡ rows.old.items ++ once_behind rows.old.items (spec.said_of_nominal (known (table_of symbols.now)) here (optional_nominal_of nominal.now))) }
{
    match nominal {
        Some(Nominal::Enclosed(elements)) => {
            push_elements(symbols, here, elements.as_slice(), rows)
        }
        Some(Nominal::Quoted(_)) | None => Ok(()),
    }
}

/// Says what there is to say of the expressions of a constant.
fn push_constant(
    symbols: &Symbols,
    here: Option<Reloc>,
    constant: &Constant,
    rows: &mut Vec<Row>,
) -> Result<(), OutOfMemory>
    ensures { OnOk result (rows.new.items ≡ rows.old.items ++ once_behind rows.old.items (spec.said_of_constant (known (table_of symbols.now)) here (constant_of constant.now))) }
{
    push_amount(symbols, here, &constant.factor, rows)?;
    push_amount(symbols, here, &constant.length, rows)?;
    push_nominal(symbols, here, &constant.nominal, rows)
}

/// Says what there is to say of the expressions of an operand that stand at a place, from left to right, behind what was said of
/// its statement before. An `Err` leaves only some of it said.
pub fn push_operand(
    symbols: &Symbols,
    here: Option<Reloc>,
    operand: &ConstantOperand,
    rows: &mut Vec<Row>,
) -> Result<(), OutOfMemory>
    ensures { OnOk result (rows.new.items ≡ rows.old.items ++ once_behind rows.old.items (spec.said_of_operand (known (table_of symbols.now)) here (operand_of operand.now))) }
{
    match &operand.constant {
        Some(constant) => push_constant(symbols, here, constant, rows),
        None => Ok(()),
    }
}
