//! USING and DROP as they are written.
ghost use Rattle.std.specs.Prelude.{◌≡◌, [], ◌∷◌, ◌++◌, IfOk, OnOk};
ghost use Rattle.std.specs.Option.{option_map};
ghost use Rattle.std.specs.Str.{chars};
ghost use Rattle.constant_grammar.specs.Views.{tree_in};
ghost use Rattle.using_statements.specs.Views.{bounds_of, drop_operands_of, trees_of, using_operands_of};
ghost use Rattle.using_statements.specs.Written as spec;

use constant_grammar::{Formula, read_formula};
use expression_grammar::SyntaxFault;
use hl_base::{OutOfMemory, Text};
use operand_list::split_sublist;
use std::alloc::Global;

/// Where ranges begin, and where they end, if that is written.
#[derive(Drop)]
pub(crate) struct Bounds {
    pub(crate) start: Formula,
    pub(crate) end: Option<Formula>,
}

/// The operands of USING: its bounds, and then a register at least.
#[derive(Drop)]
pub(crate) struct UsingOperands {
    pub(crate) bounds: Bounds,
    pub(crate) registers: Vec<Formula>,
}

/// The operands of DROP.
#[derive(Drop)]
pub(crate) enum DropOperands {
    /// There are none: all registers are dropped.
    Everything,
    Named(Vec<Formula>),
}

/// Reads an expression, if the text is one.
#[tactic(auto, unfolding(crate::specs::Written::expression))]
fn read_expression(alloc: Global, text: &str) -> Result<Option<Formula>, OutOfMemory>
    ensures { IfOk result (λ found. option_map tree_in found ≡ spec.expression (chars text.now)) }
{
    match read_formula(alloc, text) {
        Ok(formula) => Ok(Some(formula)),
        Err(SyntaxFault::At(_)) => Ok(None),
        Err(SyntaxFault::OutOfMemory) => Err(OutOfMemory),
    }
}

/// Adds an expression behind others.
fn push(formulas: &mut Vec<Formula>, formula: Formula) -> Result<(), OutOfMemory>
    ensures { OnOk result (formulas.new.items ≡ formulas.old.items ++ formula ∷ []) }
{
    formulas.push(formula)?;
    Ok(())
}

/// Reads some expressions, if each text is one.
#[tactic(auto, using(crate::proofs::Fronts::behind_none, crate::proofs::Fronts::behind_more, crate::proofs::Fronts::behind_all))]
fn read_expressions(alloc: Global, mut texts: &[Text]) -> Result<Option<Vec<Formula>>, OutOfMemory>
    ensures { IfOk result (λ found. option_map (λ formulas. trees_of formulas.items) found ≡ spec.expressions texts.entry.now) }
{
    let mut formulas = Vec::new(alloc);
    while let [text, rest @ ..] = texts {
        match read_expression(alloc, text.as_str())? {
            Some(formula) => push(&mut formulas, formula)?,
            None => return Ok(None),
        }
        texts = rest;
    }
    Ok(Some(formulas))
}

/// Reads bounds without an end.
fn read_without_end(alloc: Global, text: &str) -> Result<Option<Bounds>, OutOfMemory>
    ensures { IfOk result (λ found. option_map bounds_of found ≡ spec.without_end (spec.expression (chars text.now))) }
{
    match read_expression(alloc, text)? {
        Some(start) => Ok(Some(Bounds { start, end: None })),
        None => Ok(None),
    }
}

/// Reads bounds with an end.
fn read_with_end(alloc: Global, start: &str, end: &str) -> Result<Option<Bounds>, OutOfMemory>
    ensures { IfOk result (λ found. option_map bounds_of found
        ≡ spec.with_end (spec.expression (chars start.now)) (spec.expression (chars end.now))) }
{
    let Some(start) = read_expression(alloc, start)? else {
        return Ok(None);
    };
    match read_expression(alloc, end)? {
        Some(end) => Ok(Some(Bounds {
            start,
            end: Some(end),
        })),
        None => Ok(None),
    }
}

/// Reads bounds that are a list of these elements.
fn read_bounds_in(
    alloc: Global,
    text: &str,
    elements: &[Text],
) -> Result<Option<Bounds>, OutOfMemory>
    ensures { IfOk result (λ found. option_map bounds_of found ≡ spec.bounds_in (chars text.now) elements.now) }
{
    match elements {
        [start, end] => read_with_end(alloc, start.as_str(), end.as_str()),
        _ => read_without_end(alloc, text),
    }
}

/// Reads bounds.
#[tactic(auto, unfolding(crate::specs::Written::bounds))]
fn read_bounds(alloc: Global, text: &str) -> Result<Option<Bounds>, OutOfMemory>
    ensures { IfOk result (λ found. option_map bounds_of found ≡ spec.bounds (chars text.now)) }
{
    match split_sublist(alloc, text)? {
        Some(elements) => read_bounds_in(alloc, text, elements.as_slice()),
        None => read_without_end(alloc, text),
    }
}

/// Reads the operands of USING of which this is the first one, and these are the others, which are some.
fn read_whole(
    alloc: Global,
    first: &str,
    others: &[Text],
) -> Result<Option<UsingOperands>, OutOfMemory>
    ensures { IfOk result (λ found. option_map using_operands_of found
        ≡ spec.whole (spec.bounds (chars first.now)) (spec.expressions others.now)) }
{
    let Some(bounds) = read_bounds(alloc, first)? else {
        return Ok(None);
    };
    match read_expressions(alloc, others)? {
        Some(registers) => Ok(Some(UsingOperands { bounds, registers })),
        None => Ok(None),
    }
}

impl UsingOperands {
    /// Reads the operands of USING, if they are such.
    pub(crate) fn read(
        alloc: Global,
        operands: &[Text],
    ) -> Result<Option<UsingOperands>, OutOfMemory>
        ensures { IfOk result (λ found. option_map using_operands_of found ≡ spec.using_in operands.now) }
    {
        match operands {
            [] | [_] => Ok(None),
            [first, others @ ..] => read_whole(alloc, first.as_str(), others),
        }
    }
}

impl DropOperands {
    /// Reads the operands of DROP, if they are such.
    pub(crate) fn read(
        alloc: Global,
        operands: &[Text],
    ) -> Result<Option<DropOperands>, OutOfMemory>
        ensures { IfOk result (λ found. option_map drop_operands_of found ≡ spec.drop_in operands.now) }
    {
        match operands {
            [] => Ok(Some(DropOperands::Everything)),
            [one, other] if one.is_empty() && other.is_empty() => {
                Ok(Some(DropOperands::Everything))
            }
            _ => DropOperands::read_named(alloc, operands),
        }
    }

    /// Reads the operands of DROP as registers.
    fn read_named(alloc: Global, operands: &[Text]) -> Result<Option<DropOperands>, OutOfMemory>
        ensures { IfOk result (λ found. option_map drop_operands_of found ≡ spec.named (spec.expressions operands.now)) }
    {
        match read_expressions(alloc, operands)? {
            Some(registers) => Ok(Some(DropOperands::Named(registers))),
            None => Ok(None),
        }
    }
}
