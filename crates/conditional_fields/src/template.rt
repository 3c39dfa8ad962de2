//! Fields with variable symbols, as they are written.
ghost use Rattle.std.specs.Prelude.{◌≡◌, ◌≤◌, true, false, [], ◌∷◌, ◌++◌, drop, IfOk, OnOk, MatchResult};
ghost use Rattle.std.specs.Str.{chars};
ghost use Rattle.conditional_fields.specs.Readings.{IsSymbolFound, IsStep, IsPlace, IsFault};
ghost use Rattle.conditional_fields.specs.Templates as templates;

use crate::character::{
    begins_with, begins_with_letter, behind, character_count, head, is_nothing, letter_count,
};
use crate::front::{Sought, attempt, begins_with_sought, reach};
use hl_base::{OutOfMemory, Text};
use operand_grammar::hlasm_statements::split_columns;
use operand_grammar::{Expr, SyntaxFault};
use std::alloc::Global;

/// A piece of a field: plain characters, or a variable symbol with its subscripts, as an expression.
#[derive(Drop)]
pub enum Piece {
    Plain(Text),
    Variable(Expr),
}

/// The pieces of a field in order.
#[derive(Drop)]
pub struct Template {
    pub pieces: Vec<Piece>,
}

/// A variable symbol at the front of a text, and how many characters it has.
#[derive(Drop)]
pub struct Found {
    pub tree: Expr,
    pub length: usize,
}

/// A piece at the front of a text, and how many characters it takes.
#[derive(Drop)]
struct Step {
    piece: Piece,
    length: usize,
}

/// Whether an ampersand with this text behind it begins a variable symbol.
fn begins_symbol(c: char, behind: &str) -> bool
    ensures { result ≡ templates.begins_symbol c (chars behind.now) }
{
    c == '&' && begins_with_letter(behind)
}

/// Whether it is the first of two ampersands.
fn begins_pair(c: char, behind: &str) -> bool
    ensures { result ≡ templates.begins_pair c (chars behind.now) }
{
    c == '&' && begins_with(behind, '&')
}

/// How many plain characters a text begins with.
fn plain_length(text: &str) -> Result<usize, OutOfMemory>
    ensures { IfOk result (λ n. n ≡ templates.plain_length false (chars text.now)) }
{
    let mut count: usize = 0;
    let mut second = false;
    let mut rest = text;
    while let Some((c, behind)) = head(rest) {
        if !second && begins_symbol(c, behind) {
            return Ok(count);
        }
        second = !second && begins_pair(c, behind);
        count = count.checked_add(1).ok_or(OutOfMemory)?;
        rest = behind;
    }
    Ok(count)
}

/// How many characters a variable symbol at the front of a text has without its subscripts.
fn bare_length(text: &str) -> Result<usize, OutOfMemory>
    ensures { IfOk result (λ n. n ≡ templates.bare_length (chars text.now)) }
{
    let (_sigil, behind) = split_columns(text, 1);
    letter_count(behind).checked_add(1).ok_or(OutOfMemory)
}

/// A variable symbol with subscripts at the front of a text.
fn subscripted(alloc: Global, text: &str) -> Result<Option<Found>, OutOfMemory>
    ensures { IfOk result (IsSymbolFound true (chars text.now)) }
{
    match begins_with_sought(alloc, Sought::Variable, text)? {
        Some(front) => Ok(Some(Found {
            tree: front.tree,
            length: front.before.checked_add(1).ok_or(OutOfMemory)?,
        })),
        None => Ok(None),
    }
}

/// A variable symbol without subscripts at the front of a text, of which it has so many characters.
fn bare(alloc: Global, text: &str, length: usize) -> Result<Option<Found>, OutOfMemory>
    requires { length ≡ templates.bare_length (chars text.now) }
    ensures { IfOk result (IsSymbolFound false (chars text.now)) }
{
    let (symbol, _behind) = split_columns(text, length);
    match attempt(alloc, Sought::Variable, symbol)? {
        Some(tree) => Ok(Some(Found { tree, length })),
        None => Ok(None),
    }
}

/// The variable symbol that a text begins with, if it can be read.
pub fn symbol(alloc: Global, text: &str) -> Result<Option<Found>, OutOfMemory>
    ensures { IfOk result (IsSymbolFound (templates.has_subscripts (chars text.now)) (chars text.now)) }
{
    let length = bare_length(text)?;
    let (_symbol, behind) = split_columns(text, length);
    if begins_with(behind, '(') {
        return subscripted(alloc, text);
    }
    bare(alloc, text, length)
}

/// So many characters, and one more where a period is behind them.
fn with_period(text: &str, length: usize) -> Result<usize, OutOfMemory>
    ensures { IfOk result (λ n. (drop n (chars text.now) ≡ templates.behind_symbol (drop length (chars text.now))) × (length ≤ n)) }
{
    let (_symbol, behind) = split_columns(text, length);
    if begins_with(behind, '.') {
        return length.checked_add(1).ok_or(OutOfMemory);
    }
    Ok(length)
}

/// The piece that a text begins with; `None` where it begins with a variable symbol that cannot be read, or has no
/// character.
fn next_piece(alloc: Global, text: &str) -> Result<Option<Step>, OutOfMemory>
    ensures { IfOk result (IsStep (chars text.now)) }
{
    let count = plain_length(text)?;
    if count > 0 {
        let (plain, _behind) = split_columns(text, count);
        return Ok(Some(Step {
            piece: Piece::Plain(Text::of(alloc, plain)?),
            length: count,
        }));
    }
    match symbol(alloc, text)? {
        Some(found) => Ok(Some(Step {
            length: with_period(text, found.length)?,
            piece: Piece::Variable(found.tree),
        })),
        None => Ok(None),
    }
}

/// How many characters of a field stand before its rest, and how many of the rest some variable symbol begins with.
fn place(alloc: Global, field: &str, rest: &str) -> Result<u32, OutOfMemory>
    ensures { IfOk result (IsPlace (chars field.now) (chars rest.now)) }
{
    let inside = reach(alloc, Sought::Variable, rest)?;
    let before = character_count(field).saturating_sub(character_count(rest));
    let before = u32::try_from(before).map_err(|_| OutOfMemory)?;
    before.checked_add(inside).ok_or(OutOfMemory)
}

/// Adds a piece behind others.
fn push(pieces: &mut Vec<Piece>, piece: Piece) -> Result<(), OutOfMemory>
    ensures { OnOk result (pieces.new.items ≡ pieces.old.items ++ piece ∷ []) }
{
    pieces.push(piece)?;
    Ok(())
}

impl Template {
    /// The pieces of a field. `At` where a variable symbol of it cannot be read: the length of its longest front that
    /// reads as pieces and the beginning of a variable symbol, in characters.
    pub fn read(alloc: Global, field: &str) -> Result<Template, SyntaxFault>
        ensures { MatchResult result (λ t. templates.IsTemplate (chars field.now) t.pieces.items) (IsFault (chars field.now)) }
    {
        let mut pieces = Vec::new(alloc);
        let mut rest = field;
        while !is_nothing(rest) {
            match next_piece(alloc, rest)? {
                Some(step) => {
                    push(&mut pieces, step.piece)?;
                    rest = behind(rest, step.length);
                }
                None => return Err(SyntaxFault::At(place(alloc, field, rest)?)),
            }
        }
        Ok(Template { pieces })
    }
}
