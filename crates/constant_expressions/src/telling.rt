//! What the numbers of an operand come to.
ghost use Rattle.std.specs.Prelude.{◌≡◌, ◌≤◌};
ghost use Rattle.constant_grammar.specs.Views.{constant_of, optional_amount_of};
ghost use Rattle.constant_operands.specs.Views.{operand_of};
ghost use Rattle.expression_grammar.specs.Spelling.{most_parts};
ghost use Rattle.expression_grammar.specs.Trees.{size};
ghost use Rattle.expression_grammar.specs.Views.{tree_of};
ghost use Rattle.ordinary_symbols.specs.Shown.{table_of};
ghost use Rattle.ordinary_symbols.specs.Table.{known};
ghost use Rattle.constant_expressions.specs.Told as spec;

use constant_grammar::{Amount, Constant};
use constant_operands::{ConstantOperand, Told, ToldNumbers};
use expression_grammar::Expr;
use ordinary_symbols::{EvalFault, Symbols};
use trace_values::{Reloc, SectionId};

/// A number in this section, or in none.
fn told_in(section: Option<SectionId>, number: i32) -> Told
    ensures { result ≡ spec.told_in section number }
{
    match section {
        None => Told::Absolute(number),
        Some(_) => Told::Other,
    }
}

/// What a value is as a number.
fn told_value(value: Result<Reloc, EvalFault>) -> Told
    ensures { result ≡ spec.told_value value }
{
    match value {
        Ok(found) => told_in(found.section, found.value),
        Err(_) => Told::Other,
    }
}

/// What an expression comes to that stands at a place. Any expression that `parse_ordinary` gives is small enough.
pub fn told(symbols: &Symbols, here: Option<Reloc>, e: &Expr) -> Told
    requires { size (tree_of e.now) ≤ most_parts }
    ensures { result ≡ spec.told (known (table_of symbols.now)) here (tree_of e.now) }
{
    if symbols.first_unknown(e).is_some() {
        return Told::Unknown;
    }
    told_value(symbols.eval(e, here))
}

/// What a number comes to; one that is no expression has none to tell of.
fn told_amount(symbols: &Symbols, here: Option<Reloc>, amount: &Option<Amount>) -> Told
    ensures { result ≡ spec.told_amount (known (table_of symbols.now)) here (optional_amount_of amount.now) }
{
    match amount {
        Some(Amount::Computed(formula)) => told(symbols, here, &formula.tree),
        Some(Amount::Decimal(_)) | None => Told::Other,
    }
}

/// What the numbers of a constant come to.
fn told_constant(symbols: &Symbols, here: Option<Reloc>, constant: &Constant) -> ToldNumbers
    ensures { result ≡ spec.told_constant (known (table_of symbols.now)) here (constant_of constant.now) }
{
    ToldNumbers {
        factor: told_amount(symbols, here, &constant.factor),
        length: told_amount(symbols, here, &constant.length),
    }
}

/// What the factor and the length of an operand come to at a place.
pub fn told_numbers(
    symbols: &Symbols,
    here: Option<Reloc>,
    operand: &ConstantOperand,
) -> ToldNumbers
    ensures { result ≡ spec.told_numbers (known (table_of symbols.now)) here (operand_of operand.now) }
{
    match &operand.constant {
        Some(constant) => told_constant(symbols, here, constant),
        None => ToldNumbers {
            factor: Told::Other,
            length: Told::Other,
        },
    }
}
