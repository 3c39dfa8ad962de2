//! Expressions with one relocatable term at most, which has a plus before it (SC26-4940, "Absolute and relocatable
//! expressions"): most are such, and their values are found in one pass over their terms.
ghost use Rattle.std.specs.Prelude.{IfSome};
ghost use Rattle.expression_grammar.specs.declared.tree.Operator.TheVariants.{Add, Subtract};
ghost use Rattle.expression_grammar.specs.Views.{tree_of};
ghost use Rattle.ordinary_symbols.specs.Shown.{table_of};
ghost use Rattle.ordinary_symbols.specs.SingleTerms.{ComesTo, Joins};
ghost use Rattle.ordinary_symbols.specs.Table.{known};

use crate::Symbols;
use cond_expr::arithmetic;
use expression_grammar::{Expr, Operator, Reference};
use trace_values::Reloc;

/// The sum of two values, if one of them at most is in a section.
#[tactic(auto, using(crate::proofs::TermLaws::sum_before, crate::proofs::TermLaws::sum_behind))]
fn sum(left: Reloc, right: Reloc) -> Option<Reloc>
    ensures { IfSome result (λ value. Joins Add left right value) }
{
    let value = arithmetic::sum(left.value, right.value)?;
    match (left.section, right.section) {
        (section, None) => Some(Reloc { section, value }),
        (None, section) => Some(Reloc { section, value }),
        _ => None,
    }
}

/// The difference of two values, if the second is in no section.
#[tactic(auto, using(crate::proofs::TermLaws::difference_before))]
fn difference(left: Reloc, right: Reloc) -> Option<Reloc>
    ensures { IfSome result (λ value. Joins Subtract left right value) }
{
    let value = arithmetic::difference(left.value, right.value)?;
    match right.section {
        None => Some(Reloc {
            section: left.section,
            value,
        }),
        Some(_) => None,
    }
}

/// The sum or the difference of two values, if it is such.
fn joined(operator: Operator, left: Reloc, right: Reloc) -> Option<Reloc>
    ensures { IfSome result (λ value. Joins operator left right value) }
{
    match operator {
        Operator::Add => sum(left, right),
        Operator::Subtract => difference(left, right),
        _ => None,
    }
}

impl Symbols {
    /// The value of an expression of such terms, sums and differences; none where it is another or has a fault.
    pub(crate) fn simple_value(&self, e: &Expr, here: Option<Reloc>) -> Option<Reloc>
        ensures { IfSome result (λ value. ComesTo (known (table_of self.now)) here (tree_of e.now) value) }
    {
        match e {
            Expr::Number(_, bits) => Some(Reloc {
                section: None,
                value: bits.cast_signed(),
            }),
            Expr::Here => here,
            Expr::Symbol(Reference::Value, symbol) => self.value(&symbol.name),
            Expr::Pair(operator, left, right) => {
                let one = self.simple_value(left, here)?;
                let other = self.simple_value(right, here)?;
                joined(*operator, one, other)
            }
            Expr::Paren(inner) => self.simple_value(inner, here),
            _ => None,
        }
    }
}
