//! Texts read as character expressions.
ghost use Rattle.std.specs.Prelude.{◌≡◌, ◌≤◌, MatchResult, Some};
ghost use Rattle.std.specs.Str.{chars};
ghost use Rattle.expression_grammar.specs.Answers.{IsFault};
ghost use Rattle.character_grammar.specs.TextAnswers.{TextStops};
ghost use Rattle.expression_grammar.specs.Spelling.{IsExpression, most_parts};
ghost use Rattle.character_grammar.specs.TextReading as texts;
ghost use Rattle.character_grammar.specs.TextViews.{text_state};
ghost use Rattle.character_grammar.specs.Texts.{SpellsText};
ghost use Rattle.expression_grammar.specs.Views.{tree_of};

use crate::in_place::take_plain;
use crate::text_point::TextPoint;
use crate::text_reader::{text_finish, text_step};
use expression_grammar::tree::Expr;
use expression_grammar::{MOST_PARTS, SyntaxFault};
use std::alloc::Global;
use std::mem;

/// What is read of a character expression.
#[derive(Drop)]
struct TextProgress {
    point: TextPoint,
    /// How many terms, operators and pairs of parentheses each expression has at least that begins so.
    weight: u64,
}

/// One character more, wherever the expression stands. What an `Err` leaves is of no use.
#[inline(never)]
fn advance_anywhere(
    alloc: Global,
    progress: &mut TextProgress,
    c: char,
    at: u32,
) -> Result<(), SyntaxFault>
    requires weighed { progress.old.weight ≡ texts.text_weight (text_state progress.old.point) }
    requires small { progress.old.weight ≤ most_parts }
    ensures { MatchResult result
        (λ _. (texts.text_advance most_parts (text_state progress.old.point) (record { at = at; code = c }) ≡ Some (text_state progress.new.point))
        × (progress.new.weight ≡ texts.text_weight (text_state progress.new.point)) × (progress.new.weight ≤ most_parts))
        (TextStops (text_state progress.old.point) (record { at = at; code = c })) }
{
    let before = progress.weight;
    let point = mem::replace(&mut progress.point, TextPoint::WantPart(None));
    let Some(moved) = text_step(alloc, point, c, at)? else {
        return Err(SyntaxFault::At(at));
    };
    if moved.more > u64::from(MOST_PARTS) - before {
        return Err(SyntaxFault::At(at));
    }
    progress.point = moved.point;
    progress.weight = before + moved.more;
    Ok(())
}

/// One character more of a character expression. What an `Err` leaves is of no use.
fn advance_text(
    alloc: Global,
    progress: &mut TextProgress,
    c: char,
    at: u32,
) -> Result<(), SyntaxFault>
    requires weighed { progress.old.weight ≡ texts.text_weight (text_state progress.old.point) }
    requires small { progress.old.weight ≤ most_parts }
    ensures { MatchResult result
        (λ _. (texts.text_advance most_parts (text_state progress.old.point) (record { at = at; code = c }) ≡ Some (text_state progress.new.point))
        × (progress.new.weight ≡ texts.text_weight (text_state progress.new.point)) × (progress.new.weight ≤ most_parts))
        (TextStops (text_state progress.old.point) (record { at = at; code = c })) }
{
    if take_plain(&mut progress.point, c)? {
        return Ok(());
    }
    advance_anywhere(alloc, progress, c, at)
}

/// Reads a character expression, as the operand of SETC (SC26-4940, "Character (SETC) expressions").
pub fn parse_char(alloc: Global, text: &str) -> Result<Expr, SyntaxFault>
    ensures { MatchResult result (λ e. IsExpression SpellsText most_parts (chars text.now) (tree_of e)) (IsFault SpellsText (chars text.now)) }
{
    let mut progress = TextProgress {
        point: TextPoint::WantPart(None),
        weight: 1,
    };
    let mut at: u32 = 0;
    for c in text.chars() {
        match advance_text(alloc, &mut progress, c, at) {
            Ok(()) => {}
            Err(fault) => return Err(fault),
        }
        at = at.checked_add(1).ok_or(SyntaxFault::OutOfMemory)?;
    }
    match text_finish(alloc, progress.point)? {
        Some(tree) => Ok(tree),
        None => Err(SyntaxFault::At(at)),
    }
}
