//! Texts of character expressions: their greatest length, duplication and substrings (SC26-4940, "Character (SETC)
//! expressions").
//!
//! Each call tells an outcome: the text, with its notes after those that were there. Only want of memory is an `Err`,
//! after which the notes are of no use.
ghost use Rattle.std.specs.Prelude.{◌≡◌, IfOk, take, drop, string_bytes};
ghost use Rattle.std.specs.Str.{chars};
ghost use Rattle.cond_expr.specs.Outcome.{Tells};
ghost use Rattle.cond_expr.specs.Characters as characters;

use crate::stop::Stop;
use crate::trouble;
use hl_base::{Notes, OutOfMemory, Text};
use operand_list::hlasm_statements::text::character_count;
use std::alloc::{AllocError, Global};

/// The greatest length of a character value, in characters.
const LONGEST_VALUE: usize = 1024;

/// So many characters of a text behind those before.
fn middle(alloc: Global, text: &str, before: usize, count: usize) -> Result<String, AllocError>
    ensures { IfOk result (λ part. chars (string_bytes part) ≡ take count (drop before (chars text.now))) }
{
    text.chars().skip(before).take(count).collect(alloc)
}

/// So many characters of a text behind those before, as a text.
fn middle_text(alloc: Global, text: &Text, before: usize, count: usize) -> Result<Text, OutOfMemory>
    ensures { IfOk result (λ part. part ≡ take count (drop before text.now)) }
{
    let part = middle(alloc, text.as_str(), before, count)?;
    Text::of(alloc, part.as_str())
}

/// A text, cut at 1,024 characters with a note.
pub fn limited(alloc: Global, text: Text, notes: &mut Notes) -> Result<Text, Stop>
    ensures { Tells (characters.limited text) notes.old notes.new result }
{
    if character_count(text.as_str()) <= LONGEST_VALUE {
        return Ok(text);
    }
    let cut = middle_text(alloc, &text, 0, LONGEST_VALUE)?;
    notes.push(trouble::too_long(alloc)?)?;
    Ok(cut)
}

/// A number, and 0 in place of one below 0.
fn not_below_0(number: i32) -> usize
    ensures { result ≡ characters.not_below_0 number }
{
    if number < 0 { 0 } else { number as usize }
}

/// Copies of a text: so many, or as many as pass the greatest length.
fn copies(alloc: Global, count: usize, text: &Text) -> Result<Text, OutOfMemory>
    ensures { IfOk result (λ whole. characters.limited whole ≡ characters.limited (characters.repeated count text.now)) }
{
    let mut whole = Text::new(alloc);
    let length = character_count(text.as_str());
    if length == 0 {
        return Ok(whole);
    }
    let enough = count.min(LONGEST_VALUE / length + 1);
    for _copy in 0..enough {
        whole.push_str(text.as_str())?;
    }
    Ok(whole)
}

/// So many copies of a text, none where the factor is below 0.
pub fn duplicated(alloc: Global, factor: i32, text: &Text, notes: &mut Notes) -> Result<Text, Stop>
    ensures { Tells (characters.duplicated factor text.now) notes.old notes.new result }
{
    let whole = copies(alloc, not_below_0(factor), text)?;
    limited(alloc, whole, notes)
}

/// How many characters stand before a character that is counted from 1.
fn characters_before(start: i32) -> Option<usize>
    ensures { result ≡ characters.characters_before start }
{
    if start < 1 {
        return None;
    }
    Some((start - 1) as usize)
}

/// So many characters of a text behind those before; the text's end cuts them.
fn part(
    alloc: Global,
    text: &Text,
    before: Option<usize>,
    count: usize,
    notes: &mut Notes,
) -> Result<Text, Stop>
    ensures { Tells (characters.part text.now before count) notes.old notes.new result }
{
    if let Some(before) = before
        && (before < character_count(text.as_str()) || count == 0)
    {
        return Ok(middle_text(alloc, text, before, count)?);
    }
    notes.push(trouble::outside(alloc)?)?;
    Ok(Text::new(alloc))
}

/// The substring of a text from a character on, with a count.
pub fn substring(
    alloc: Global,
    text: &Text,
    start: i32,
    count: i32,
    notes: &mut Notes,
) -> Result<Text, Stop>
    ensures { Tells (characters.substring text.now start count) notes.old notes.new result }
{
    part(
        alloc,
        text,
        characters_before(start),
        not_below_0(count),
        notes,
    )
}

/// How many characters are left behind those before.
fn left_behind(text: &Text, before: Option<usize>) -> usize
    ensures { result ≡ characters.left_behind text.now before }
{
    match before {
        Some(before) => character_count(text.as_str()).saturating_sub(before),
        None => 0,
    }
}

/// The substring of a text from a character to its end.
pub fn substring_to_end(
    alloc: Global,
    text: &Text,
    start: i32,
    notes: &mut Notes,
) -> Result<Text, Stop>
    ensures { Tells (characters.substring_to_end text.now start) notes.old notes.new result }
{
    let before = characters_before(start);
    part(alloc, text, before, left_behind(text, before), notes)
}
