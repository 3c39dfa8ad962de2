//! What is said once all symbols are known.
ghost use Rattle.std.specs.Prelude.{◌≡◌, ◌++◌, map, OnOk};
ghost use Rattle.std.specs.Option.{option_map};
ghost use Rattle.constant_grammar.specs.Views.{tree_in};
ghost use Rattle.constant_operands.specs.Views.{operand_of};
ghost use Rattle.expression_notes.specs.Expressions.{undefined};
ghost use Rattle.expression_notes.specs.Repeating.{once_behind};
ghost use Rattle.ordinary_symbols.specs.Shown.{table_of};
ghost use Rattle.ordinary_symbols.specs.Table.{known};
ghost use Rattle.section_layout.specs.Rows as spec;
ghost use Rattle.section_steps.specs.Views.{left_of};

use constant_grammar::Formula;
use constant_operands::ConstantOperand;
use expression_notes::{Wanted, push_expression, push_symbol};
use hl_base::{Name, OutOfMemory};
use note_rows::Row;
use ordinary_symbols::{Symbols, Trouble};
use section_steps::Left;
use section_steps::constant_expressions::push_operand;
use trace_values::Reloc;

/// Says why the EQU of a symbol has no value.
fn push_trouble(trouble: Trouble, name: &Name, rows: &mut Vec<Row>) -> Result<(), OutOfMemory>
    ensures { OnOk result (rows.new.items ≡ rows.old.items ++ spec.said_of_trouble (Some trouble) name.now) }
{
    match trouble {
        Trouble::Unresolved => rows.push(Row::EquWithoutValue(name.copy()))?,
        Trouble::Unsimple => rows.push(Row::NotSimple)?,
    }
    Ok(())
}

/// The same of the symbol at a place, if its EQU has none.
fn push_symbol_at(symbols: &Symbols, at: usize, rows: &mut Vec<Row>) -> Result<(), OutOfMemory>
    ensures { OnOk result (rows.new.items ≡ rows.old.items ++ spec.said_of_symbol (table_of symbols.now) (Some at)) }
{
    match (symbols.trouble(at), symbols.row(at)) {
        (Some(trouble), Some(row)) => push_trouble(trouble, &row.name, rows),
        _ => Ok(()),
    }
}

/// The same of the symbol that EQU defines, if what is left is of EQU.
pub(crate) fn push_equate(
    symbols: &Symbols,
    left: &Left,
    rows: &mut Vec<Row>,
) -> Result<(), OutOfMemory>
    ensures { OnOk result (rows.new.items ≡ rows.old.items ++ spec.said_of_equate (table_of symbols.now) (left_of left.now)) }
{
    match left {
        Left::Equated(Some(at), _) => push_symbol_at(symbols, *at, rows),
        Left::Equated(None, _)
        | Left::Nothing
        | Left::Operands(_)
        | Left::Names(_)
        | Left::Expression(_) => Ok(()),
    }
}

/// Says what there is to say of the expressions of an operand.
#[tactic(auto, unfolding(crate::specs::Rows::said_of_one))]
fn push_one(
    symbols: &Symbols,
    here: Option<Reloc>,
    operand: &ConstantOperand,
    rows: &mut Vec<Row>,
) -> Result<(), OutOfMemory>
    ensures { OnOk result (rows.new.items
        ≡ rows.old.items ++ once_behind rows.old.items (spec.said_of_one (known (table_of symbols.now)) here (operand_of operand.now))) }
{
    push_operand(symbols, here, operand, rows)
}

/// The same of some operands, in order.
#[tactic(auto, using(crate::proofs::Turns::operands_more))]
fn push_operands(
    symbols: &Symbols,
    here: Option<Reloc>,
    operands: &[ConstantOperand],
    rows: &mut Vec<Row>,
) -> Result<(), OutOfMemory>
    ensures { OnOk result (rows.new.items
        ≡ rows.old.items ++ once_behind rows.old.items (spec.said_of_operands (known (table_of symbols.now)) here (map operand_of operands.now))) }
{
    for operand in operands {
        push_one(symbols, here, operand, rows)?;
    }
    Ok(())
}

/// Says of names that they are not defined.
#[tactic(auto, using(crate::proofs::Turns::undefined_next))]
fn push_names(symbols: &Symbols, mut names: &[Name], rows: &mut Vec<Row>) -> Result<(), OutOfMemory>
    ensures { OnOk result (rows.new.items
        ≡ rows.old.items ++ once_behind rows.old.items (undefined (known (table_of symbols.now)) names.entry.now)) }
{
    while let [name, rest @ ..] = names {
        push_symbol(symbols, name, rows)?;
        names = rest;
    }
    Ok(())
}

/// Says what there is to say of a length, if there is one.
fn push_length(
    symbols: &Symbols,
    here: Option<Reloc>,
    length: &Option<Formula>,
    rows: &mut Vec<Row>,
) -> Result<(), OutOfMemory>
    ensures { OnOk result (rows.new.items
        ≡ rows.old.items ++ once_behind rows.old.items (spec.said_of_length (known (table_of symbols.now)) here (option_map tree_in length.now))) }
{
    match length {
        Some(formula) => push_expression(symbols, &formula.tree, here, Wanted::Number, rows),
        None => Ok(()),
    }
}

/// Says what there is to say of what a statement left, behind what was said of it before.
pub(crate) fn push_left(
    symbols: &Symbols,
    here: Option<Reloc>,
    left: &Left,
    rows: &mut Vec<Row>,
) -> Result<(), OutOfMemory>
    ensures { OnOk result (rows.new.items ≡ spec.judged_behind (table_of symbols.now) here (left_of left.now) rows.old.items) }
{
    match left {
        Left::Nothing => Ok(()),
        Left::Operands(operands) => push_operands(symbols, here, operands.as_slice(), rows),
        Left::Names(names) => push_names(symbols, names.as_slice(), rows),
        Left::Expression(formula) => {
            push_expression(symbols, &formula.tree, here, Wanted::Value, rows)
        }
        Left::Equated(_, length) => push_length(symbols, here, length, rows),
    }
}
