//! Expressions of the three types of values.
ghost use Rattle.std.specs.Str.{chars};
ghost use Rattle.expression_grammar.specs.declared.character.Grammar.TheVariants.{Arithmetic};
ghost use Rattle.expression_grammar.specs.Readings.{read};
ghost use Rattle.expression_grammar.specs.Views.{tree_of};
ghost use Rattle.conditional_fields.specs.LogicReadings.{read_logic};
ghost use Rattle.character_grammar.specs.TextReadings.{read_text};
ghost use Rattle.conditional_fields.specs.Answers.{Says};

use conditional_fields::operand_grammar::{
    Expr, SyntaxFault, parse_arith, parse_char, parse_logic,
};
use std::alloc::Global;

/// An arithmetic expression.
pub(crate) fn read_number(alloc: Global, text: &str) -> Result<Expr, SyntaxFault>
    ensures { Says tree_of (read Arithmetic (chars text.now)) result }
{
    parse_arith(alloc, text)
}

/// A logical expression.
pub(crate) fn read_condition(alloc: Global, text: &str) -> Result<Expr, SyntaxFault>
    ensures { Says tree_of (read_logic (chars text.now)) result }
{
    parse_logic(alloc, text)
}

/// A character expression.
pub(crate) fn read_characters(alloc: Global, text: &str) -> Result<Expr, SyntaxFault>
    ensures { Says tree_of (read_text (chars text.now)) result }
{
    parse_char(alloc, text)
}
