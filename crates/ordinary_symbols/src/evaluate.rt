//! The values of ordinary expressions (SC26-4940, "Expressions"). A tree that is parsed has at most 1,000 nodes, so a call is
//! at most 1,000 calls deep.
ghost use Rattle.std.specs.Prelude.{◌≡◌, ◌≤◌, ◌&&◌};
ghost use Rattle.expression_grammar.specs.Trees.{size};
ghost use Rattle.expression_grammar.specs.Spelling.{most_parts};
ghost use Rattle.expression_grammar.specs.Views.{tree_of};
ghost use Rattle.ordinary_symbols.specs.Known.{first_unknown, leftmost, equated_length, length_of};
ghost use Rattle.ordinary_symbols.specs.Shown.{table_of};
ghost use Rattle.ordinary_symbols.specs.Table.{known};
ghost use Rattle.ordinary_symbols.specs.Values as values;
ghost use Rattle.ordinary_symbols.specs.Sections.{is_absolute};
ghost use Rattle.std.specs.Option.{option_copied, option_or};

use crate::{EvalFault, Known, Symbols};
use cond_expr::arithmetic;
use expression_grammar::{Attribute, Expr, Operator, Reference, Sign};
use hl_base::Name;
use trace_values::Reloc;

/// A number that was computed, where it fits.
fn checked(number: Option<i32>) -> Result<i32, EvalFault>
    ensures { result ≡ values.checked number }
{
    match number {
        Some(number) => Ok(number),
        None => Err(EvalFault::Overflow),
    }
}

/// What a symbol stands for of which something is known: its value, or its length.
fn number_of_symbol(asked: Reference, name: &Name, known: Option<Known>) -> Result<i32, EvalFault>
    ensures { result ≡ values.number_of_symbol asked name.now known }
{
    let Some(known) = known else {
        return Err(EvalFault::Undefined(name.copy()));
    };
    match asked {
        Reference::Value => Ok(known.value.value),
        Reference::Of(Attribute::Length) => checked(arithmetic::counted(known.length as usize)),
        Reference::Of(_) => Err(EvalFault::NotSimple),
    }
}

/// The place where an expression stands.
fn number_of_place(here: Option<Reloc>) -> Result<i32, EvalFault>
    ensures { result ≡ values.number_of_place here }
{
    match here {
        Some(here) => Ok(here.value),
        None => Err(EvalFault::NotSimple),
    }
}

/// What a sign makes of a number.
fn signed(sign: Sign, number: i32) -> Result<i32, EvalFault>
    ensures { result ≡ values.signed sign number }
{
    match sign {
        Sign::Plus => Ok(number),
        Sign::Minus => checked(arithmetic::negated(number)),
    }
}

/// What an operator makes of two numbers, which are both absolute or not.
fn joined(operator: Operator, absolute: bool, left: i32, right: i32) -> Result<i32, EvalFault>
    ensures { result ≡ values.joined operator absolute left right }
{
    match operator {
        Operator::Add => checked(arithmetic::sum(left, right)),
        Operator::Subtract => checked(arithmetic::difference(left, right)),
        Operator::Multiply if absolute => checked(arithmetic::product(left, right)),
        Operator::Divide if absolute => checked(arithmetic::quotient(left, right)),
        Operator::Multiply | Operator::Divide | Operator::And | Operator::Or | Operator::Xor => {
            Err(EvalFault::NotSimple)
        }
    }
}

/// The first of two names, if there is one.
fn first_of<'a>(one: Option<&'a Name>, other: Option<&'a Name>) -> Option<&'a Name>
    ensures { option_copied result ≡ option_or (option_copied one.entry) (option_copied other.entry) }
{
    match one {
        Some(name) => Some(name),
        None => other,
    }
}

impl Symbols {
    /// The number of an expression, whichever section it is in.
    fn number(&self, e: &Expr, here: Option<Reloc>) -> Result<i32, EvalFault>
        requires { size (tree_of e.now) ≤ most_parts }
        ensures { result ≡ values.number (known (table_of self.now)) here (tree_of e.now) }
    {
        match e {
            Expr::Number(_, bits) => Ok(bits.cast_signed()),
            Expr::Here => number_of_place(here),
            Expr::Symbol(asked, symbol) => {
                number_of_symbol(*asked, &symbol.name, self.known(&symbol.name))
            }
            Expr::Signed(sign, operand) => {
                let number = self.number(operand, here)?;
                signed(*sign, number)
            }
            Expr::Pair(operator, left, right) => {
                let m = self.number(left, here)?;
                let n = self.number(right, here)?;
                joined(*operator, self.are_absolute(left, right, here), m, n)
            }
            Expr::Paren(inner) => self.number(inner, here),
            _ => Err(EvalFault::NotSimple),
        }
    }

    /// Whether both operands are absolute.
    fn are_absolute(&self, left: &Expr, right: &Expr, here: Option<Reloc>) -> bool
        requires left { size (tree_of left.now) ≤ most_parts }
        requires right { size (tree_of right.now) ≤ most_parts }
        ensures { result ≡ (is_absolute (known (table_of self.now)) here (tree_of left.now) && is_absolute (known (table_of self.now)) here (tree_of right.now)) }
    {
        self.is_absolute(left, here) && self.is_absolute(right, here)
    }

    /// The value of an expression by all its terms.
    fn value_by_terms(&self, e: &Expr, here: Option<Reloc>) -> Result<Reloc, EvalFault>
        requires { size (tree_of e.now) ≤ most_parts }
        ensures { result ≡ values.value (known (table_of self.now)) here (tree_of e.now) }
    {
        let value = self.number(e, here)?;
        let Some(section) = self.left_over(e, here, None) else {
            return Ok(Reloc {
                section: None,
                value,
            });
        };
        if !self.is_simple(e, here, section) {
            return Err(EvalFault::NotSimple);
        }
        Ok(Reloc {
            section: Some(section),
            value,
        })
    }

    /// The value of an expression that stands at a place, if there is one. Any expression that `parse_ordinary` gives is
    /// small enough. It takes no memory.
    #[tactic(auto, using(crate::proofs::TermLaws::comes_to))]
    pub fn eval(&self, e: &Expr, here: Option<Reloc>) -> Result<Reloc, EvalFault>
        requires { size (tree_of e.now) ≤ most_parts }
        ensures { result ≡ values.value (known (table_of self.now)) here (tree_of e.now) }
    {
        match self.simple_value(e, here) {
            Some(value) => Ok(value),
            None => self.value_by_terms(e, here),
        }
    }

    /// The first symbol of an expression of which nothing is known.
    pub fn first_unknown<'a>(&self, e: &'a Expr) -> Option<&'a Name>
        ensures { option_copied result ≡ first_unknown (known (table_of self.now)) (tree_of e.now) }
    {
        match e {
            Expr::Symbol(_, symbol) => {
                if self.known(&symbol.name).is_some() {
                    return None;
                }
                Some(&symbol.name)
            }
            Expr::Signed(_, operand) => self.first_unknown(operand),
            Expr::Pair(_, left, right) => {
                first_of(self.first_unknown(left), self.first_unknown(right))
            }
            Expr::Paren(inner) => self.first_unknown(inner),
            _ => None,
        }
    }

    /// The length that an expression gives to the symbol that is equated with it.
    pub fn equated_length(&self, e: &Expr) -> u32
        ensures { result ≡ equated_length (known (table_of self.now)) (tree_of e.now) }
    {
        match e {
            Expr::Symbol(Reference::Value, symbol) => match self.known(&symbol.name) {
                Some(known) => known.length,
                None => 1,
            },
            Expr::Signed(_, operand) => self.equated_length(operand),
            Expr::Pair(_, left, _) => self.equated_length(left),
            Expr::Paren(inner) => self.equated_length(inner),
            _ => 1,
        }
    }
}
