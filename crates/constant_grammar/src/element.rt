//! What stands in the parentheses of an address constant (SC26-4940, "Address constants").
ghost use Rattle.std.specs.Prelude.{◌≡◌, ◌≤◌, Ok, IfOk, IfSome};
ghost use Rattle.std.specs.Str.{chars};
ghost use Rattle.std.specs.Option.{option_map};
ghost use Rattle.expression_grammar.specs.declared.character.Grammar.TheVariants.{Ordinary};
ghost use Rattle.expression_grammar.specs.Readings.{Tells, read};
ghost use Rattle.expression_grammar.specs.Spelling.{most_parts};
ghost use Rattle.expression_grammar.specs.Trees.{size};
ghost use Rattle.expression_grammar.specs.Views.{tree_of};
ghost use Rattle.plain_terms.specs.Glances.{IsRead};
ghost use Rattle.constant_grammar.specs.Elements as elements;
ghost use Rattle.constant_grammar.specs.Views.{amount_front_of, element_of, expression_in, tree_if};

use crate::amount::{Amount, AmountFront, amount_front};
use crate::tree::Formula;
use constant_table::ValueKind;
use expression_grammar::{Expr, SyntaxFault, parse_ordinary};
use hl_base::{Name, OutOfMemory, Text};
use operand_list::hlasm_statements::text::{before, behind, character_count};
use plain_terms::read_plain;
use std::alloc::Global;

/// A value of an address constant: an expression, a symbol, or an address as a displacement with a base register or without.
#[derive(Drop)]
pub enum Element {
    Expression(Formula),
    Symbol(Name),
    Address(Formula, Option<Formula>),
}

/// An expression with this tree, in the words of its reader.
fn read_tree(alloc: Global, tree: Expr) -> Result<Formula, SyntaxFault>
    requires { size (tree_of tree) ≤ most_parts }
    ensures { Tells (Ok (tree_of tree)) (expression_in result) }
{
    match Formula::new(alloc, tree) {
        Ok(formula) => Ok(formula),
        Err(_) => Err(SyntaxFault::OutOfMemory),
    }
}

/// Reads any ordinary expression.
fn read_any(alloc: Global, text: &str) -> Result<Formula, SyntaxFault>
    ensures { Tells (read Ordinary (chars text.now)) (expression_in result) }
{
    match parse_ordinary(alloc, text) {
        Ok(tree) => read_tree(alloc, tree),
        Err(fault) => Err(fault),
    }
}

/// The expression that was seen at a glance to be all of a text, or else any.
fn read_seen(alloc: Global, seen: Option<Expr>, text: &str) -> Result<Formula, SyntaxFault>
    requires { IfSome seen (λ tree. IsRead (chars text.now) (tree_of tree)) }
    ensures { Tells (read Ordinary (chars text.now)) (expression_in result) }
{
    match seen {
        Some(tree) => read_tree(alloc, tree),
        None => read_any(alloc, text),
    }
}

/// Reads an ordinary expression: most are seen at a glance.
pub fn read_formula(alloc: Global, text: &str) -> Result<Formula, SyntaxFault>
    ensures { Tells (read Ordinary (chars text.now)) (expression_in result) }
{
    match read_plain(alloc, text) {
        Ok(seen) => read_seen(alloc, seen, text),
        Err(_) => Err(SyntaxFault::OutOfMemory),
    }
}

/// The same where nothing else is of interest.
fn expression(alloc: Global, text: &str) -> Result<Option<Formula>, OutOfMemory>
    ensures { IfOk result (λ tree. tree_if tree ≡ elements.tree_in (read Ordinary (chars text.now))) }
{
    match read_formula(alloc, text) {
        Ok(tree) => Ok(Some(tree)),
        Err(SyntaxFault::At(_)) => Ok(None),
        Err(SyntaxFault::OutOfMemory) => Err(OutOfMemory),
    }
}

/// A displacement with what stands behind it, of which so many characters are left.
fn with_base(
    displacement: Option<Formula>,
    base: Option<AmountFront>,
    left: usize,
) -> Option<Element>
    ensures { option_map element_of result ≡ elements.with_base (tree_if displacement) (option_map amount_front_of base) left }
{
    let Some(displacement) = displacement else {
        return None;
    };
    match base {
        Some(
            AmountFront {
                amount: Amount::Computed(base),
                count,
            },
        ) if count == left => Some(Element::Address(displacement, Some(base))),
        _ => None,
    }
}

/// An address whose displacement ends behind so many characters.
fn based(alloc: Global, text: &str, at: usize) -> Result<Option<Element>, OutOfMemory>
    ensures { IfOk result (λ element. option_map element_of element ≡ elements.based at (chars text.now)) }
{
    let displacement = expression(alloc, before(text, at))?;
    let rest = behind(text, at);
    let base = amount_front(alloc, rest)?;
    Ok(with_base(displacement, base, character_count(rest)))
}

/// An address: an expression, or one with a base register in parentheses.
fn address(alloc: Global, text: &str) -> Result<Option<Element>, OutOfMemory>
    ensures { IfOk result (λ element. option_map element_of element ≡ elements.address (chars text.now)) }
{
    match read_formula(alloc, text) {
        Ok(tree) => Ok(Some(Element::Address(tree, None))),
        Err(SyntaxFault::At(at)) => based(alloc, text, at as usize),
        Err(SyntaxFault::OutOfMemory) => Err(OutOfMemory),
    }
}

/// A value of this kind.
pub(crate) fn read_element(
    alloc: Global,
    kind: ValueKind,
    text: &Text,
) -> Result<Option<Element>, OutOfMemory>
    ensures { IfOk result (λ element. option_map element_of element ≡ elements.element kind text.now) }
{
    match kind {
        ValueKind::Expressions => match expression(alloc, text.as_str())? {
            Some(tree) => Ok(Some(Element::Expression(tree))),
            None => Ok(None),
        },
        ValueKind::Symbols => match Name::read(text.as_str()) {
            Some(name) => Ok(Some(Element::Symbol(name))),
            None => Ok(None),
        },
        ValueKind::Addresses => address(alloc, text.as_str()),
        ValueKind::Text
        | ValueKind::HexadecimalDigits
        | ValueKind::Bits
        | ValueKind::Decimals
        | ValueKind::Integers
        | ValueKind::Floats => Ok(None),
    }
}
