//! Texts read as logical expressions.
ghost use Rattle.std.specs.Prelude.{◌≡◌, ◌==◌, ◌&&◌, ◌≤◌, [], IfOk, MatchResult, Option, Some, false, is_some, true};
ghost use Rattle.std.specs.Str.{chars};
ghost use Rattle.expression_grammar.specs.Answers.{IsFault};
ghost use Rattle.expression_grammar.specs.Fronts.{IsClosed, IsFirst, IsFrontFault};
ghost use Rattle.expression_grammar.specs.Readings.{TellsFront, ended_front};
ghost use Rattle.expression_grammar.specs.Spelling.{IsExpression, most_parts};
ghost use Rattle.expression_grammar.specs.Views.{tree_of};
ghost use Rattle.logical_grammar.specs.LogicAnswers.{LogicStops};
ghost use Rattle.logical_grammar.specs.LogicReading as logic;
ghost use Rattle.logical_grammar.specs.LogicReading.{OpenRelation};
ghost use Rattle.logical_grammar.specs.LogicReadings.{read_logic_front};
ghost use Rattle.logical_grammar.specs.LogicViews.{LogicTakes, open_of, point_of};
ghost use Rattle.logical_grammar.specs.Logics.{SpellsLogic};
ghost use Rattle.character_grammar.specs.TextViews.{text_state};

use crate::logic_point::{LogicPoint, Opening};
use crate::logic_reader::{logic_finish, logic_is_whole, logic_step};
use character_grammar::in_place::take_plain;
use character_grammar::text_point::TextPoint;
use expression_grammar::character::{Kind, kind_of};
use expression_grammar::tree::Expr;
use expression_grammar::{Front, MOST_PARTS, SyntaxFault};
use hl_base::{OutOfMemory, is_symbol_character};
use std::alloc::Global;
use std::mem;

/// What is read of a logical expression.
#[derive(Drop)]
struct LogicProgress {
    point: LogicPoint,
    stack: Vec<Opening>,
    /// How many terms, operators and pairs of parentheses each expression has at least that begins so.
    weight: u64,
}

/// One character more, wherever the expression stands. What an `Err` leaves is of no use.
#[inline(never)]
fn advance_anywhere(
    alloc: Global,
    progress: &mut LogicProgress,
    c: char,
    at: u32,
) -> Result<(), SyntaxFault>
    requires weighed { progress.old.weight ≡ logic.logic_weight (logic.at_point (open_of progress.old.stack.items []) (point_of progress.old.point)) }
    requires small { progress.old.weight ≤ most_parts }
    ensures { MatchResult result
        (λ _. (logic.logic_advance most_parts (logic.at_point (open_of progress.old.stack.items []) (point_of progress.old.point)) (record { at = at; code = c }) ≡ Some (logic.at_point (open_of progress.new.stack.items []) (point_of progress.new.point)))
        × (progress.new.weight ≡ logic.logic_weight (logic.at_point (open_of progress.new.stack.items []) (point_of progress.new.point))) × (progress.new.weight ≤ most_parts))
        (LogicStops (logic.at_point (open_of progress.old.stack.items []) (point_of progress.old.point)) (record { at = at; code = c })) }
{
    let before = progress.weight;
    let point = mem::replace(&mut progress.point, LogicPoint::Want(false));
    let Some(moved) = logic_step(alloc, point, c, at, &mut progress.stack)? else {
        return Err(SyntaxFault::At(at));
    };
    if moved.more > u64::from(MOST_PARTS) - before {
        return Err(SyntaxFault::At(at));
    }
    progress.point = moved.point;
    progress.weight = before + moved.more;
    Ok(())
}

/// Takes a character of a quoted text that stands for itself, where the reader stands. Says whether it is one.
#[tactic(auto, using(crate::proofs::LogicInPlace::text_takes))]
fn take_in_text(inner: &mut TextPoint, touch: &mut bool, c: char) -> Result<bool, OutOfMemory>
    ensures { IfOk result (λ taken. (relation : Option OpenRelation) → LogicTakes (logic.Text relation (text_state inner.old) touch.old) c (logic.Text relation (text_state inner.new) touch.new) taken) }
{
    if take_plain(inner, c)? {
        *touch = is_symbol_character(c);
        return Ok(true);
    }
    Ok(false)
}

/// Whether a character only goes on with the blanks where a truth is wanted.
#[tactic(auto, using(crate::proofs::LogicInPlace::blank_takes))]
fn is_gap(c: char) -> bool
    ensures { LogicTakes (logic.Want false) c (logic.Want false) result }
{
    matches!(kind_of(c), Kind::Blank)
}

/// Takes a character where the reader stands: one of a quoted text that stands for itself, or a blank behind another where a
/// truth is wanted. Says whether it is such a one. What an `Err` leaves is of no use.
fn take_in_place(point: &mut LogicPoint, c: char) -> Result<bool, OutOfMemory>
    ensures { IfOk result (LogicTakes (point_of point.old) c (point_of point.new)) }
{
    match point {
        LogicPoint::Text(_, inner, touch) => {
            let taken = take_in_text(inner, touch, c)?;
            Ok(taken)
        }
        LogicPoint::Want(false) => Ok(is_gap(c)),
        _ => Ok(false),
    }
}

/// One character more of a logical expression. What an `Err` leaves is of no use.
fn advance_logic(
    alloc: Global,
    progress: &mut LogicProgress,
    c: char,
    at: u32,
) -> Result<(), SyntaxFault>
    requires weighed { progress.old.weight ≡ logic.logic_weight (logic.at_point (open_of progress.old.stack.items []) (point_of progress.old.point)) }
    requires small { progress.old.weight ≤ most_parts }
    ensures { MatchResult result
        (λ _. (logic.logic_advance most_parts (logic.at_point (open_of progress.old.stack.items []) (point_of progress.old.point)) (record { at = at; code = c }) ≡ Some (logic.at_point (open_of progress.new.stack.items []) (point_of progress.new.point)))
        × (progress.new.weight ≡ logic.logic_weight (logic.at_point (open_of progress.new.stack.items []) (point_of progress.new.point))) × (progress.new.weight ≤ most_parts))
        (LogicStops (logic.at_point (open_of progress.old.stack.items []) (point_of progress.old.point)) (record { at = at; code = c })) }
{
    if take_in_place(&mut progress.point, c)? {
        return Ok(());
    }
    advance_anywhere(alloc, progress, c, at)
}

/// Reads a logical expression, as the operand of SETB or in the parentheses of AIF (SC26-4940, "Logical (SETB)
/// expressions").
pub fn parse_logic(alloc: Global, text: &str) -> Result<Expr, SyntaxFault>
    ensures { MatchResult result (λ e. IsExpression SpellsLogic most_parts (chars text.now) (tree_of e)) (IsFault SpellsLogic (chars text.now)) }
{
    let mut progress = LogicProgress {
        point: LogicPoint::Want(false),
        stack: Vec::new(alloc),
        weight: 1,
    };
    let mut at: u32 = 0;
    for c in text.chars() {
        match advance_logic(alloc, &mut progress, c, at) {
            Ok(()) => {}
            Err(fault) => return Err(fault),
        }
        at = at.checked_add(1).ok_or(SyntaxFault::OutOfMemory)?;
    }
    match logic_finish(alloc, progress.point, progress.stack)? {
        Some(tree) => Ok(tree),
        None => Err(SyntaxFault::At(at)),
    }
}

/// Whether a front ends before this character.
fn ends_before(progress: &LogicProgress, c: char) -> bool
    ensures { result ≡ ((c == 41) && is_some (logic.logic_accept (logic.at_point (open_of progress.now.stack.items []) (point_of progress.now.point)))) }
{
    c == ')' && logic_is_whole(&progress.point, progress.stack.as_slice())
}

/// The front that ends here, behind so many characters.
fn end_front(alloc: Global, progress: LogicProgress, before: u32) -> Result<Front, SyntaxFault>
    requires { is_some (logic.logic_accept (logic.at_point (open_of progress.stack.items []) (point_of progress.point))) ≡ true }
    ensures { TellsFront (ended_front before (logic.logic_accept (logic.at_point (open_of progress.stack.items []) (point_of progress.point)))) result }
{
    match logic_finish(alloc, progress.point, progress.stack)? {
        Some(tree) => Ok(Front {
            tree,
            before: before as usize,
        }),
        None => unreachable!(),
    }
}

/// The logical expression that a text begins with, before a closing parenthesis.
fn find_front(alloc: Global, text: &str) -> Result<Front, SyntaxFault>
    ensures { TellsFront (read_logic_front (chars text.now)) result }
{
    let mut progress = LogicProgress {
        point: LogicPoint::Want(false),
        stack: Vec::new(alloc),
        weight: 1,
    };
    let mut at: u32 = 0;
    for c in text.chars() {
        if ends_before(&progress, c) {
            return end_front(alloc, progress, at);
        }
        match advance_logic(alloc, &mut progress, c, at) {
            Ok(()) => {}
            Err(fault) => return Err(fault),
        }
        at = at.checked_add(1).ok_or(SyntaxFault::OutOfMemory)?;
    }
    Err(SyntaxFault::At(at))
}

/// Reads the logical expression that a text begins with, up to the first closing parenthesis at which it is whole, in one
/// pass (SC26-4940, "AIF instruction"). The parenthesis is no part of it.
pub fn parse_logic_front(alloc: Global, text: &str) -> Result<Front, SyntaxFault>
    ensures read { TellsFront (read_logic_front (chars text.now)) result }
    ensures front { MatchResult result (λ f. IsFirst (IsClosed SpellsLogic (chars text.now)) f.before (tree_of f.tree))
        (IsFrontFault SpellsLogic (IsClosed SpellsLogic (chars text.now)) (chars text.now)) }
{
    find_front(alloc, text)
}
