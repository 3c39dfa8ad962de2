//! The texts between commas.
ghost use Rattle.std.specs.Prelude.{◌≡◌, ◌∷◌, ◌<◌, [], length, IfOk, IfSome, MatchOption};
ghost use Rattle.std.specs.Str.{chars};
ghost use Rattle.std.specs.List.{slice_split, prefix_len};
ghost use Rattle.constant_values.specs.Values.{is_comma, is_no_comma, texts_of};

use constant_table::ValueKind;
use hl_base::{OutOfMemory, Text};
use hlasm_statements::split_columns;
use hlasm_statements::text::head;
use std::alloc::Global;

/// How many characters stand before the first comma.
fn first_count(text: &str) -> usize
    ensures { result ≡ prefix_len is_no_comma (chars text.now) }
{
    text.chars().take_while(|c| *c != ',').count()
}

/// What stands before the first comma and behind it, if there is one.
fn split_first(text: &str) -> Option<(&str, &str)>
    ensures parts { MatchOption result (slice_split is_comma (chars text.now) ≡ chars text.now ∷ []) (λ p. slice_split is_comma (chars text.now) ≡ chars p.0.now ∷ slice_split is_comma (chars p.1.now)) }
    ensures less { IfSome result (λ p. length (chars p.1.now) < length (chars text.now)) }
{
    let (front, back) = split_columns(text, first_count(text));
    match head(back) {
        Some(pair) => Some((front, pair.1)),
        None => None,
    }
}

/// The texts between the commas of a text.
fn split_at_commas(alloc: Global, text: &str) -> Result<Vec<Text>, OutOfMemory>
    ensures { IfOk result (λ parts. parts.items ≡ slice_split is_comma (chars text.now)) }
{
    let mut parts = Vec::new(alloc);
    let mut left = text;
    while let Some((part, rest)) = split_first(left) {
        parts.push(Text::of(alloc, part)?)?;
        left = rest;
    }
    parts.push(Text::of(alloc, left)?)?;
    Ok(parts)
}

/// One text.
fn single(alloc: Global, text: &str) -> Result<Vec<Text>, OutOfMemory>
    ensures { IfOk result (λ parts. parts.items ≡ chars text.now ∷ []) }
{
    let mut parts = Vec::new(alloc);
    parts.push(Text::of(alloc, text)?)?;
    Ok(parts)
}

/// The values of this kind within apostrophes: one text, or those between the commas.
pub(crate) fn texts_of(alloc: Global, kind: ValueKind, text: &str) -> Result<Vec<Text>, OutOfMemory>
    ensures { IfOk result (λ texts. texts.items ≡ texts_of kind (chars text.now)) }
{
    match kind {
        ValueKind::Text => single(alloc, text),
        _ => split_at_commas(alloc, text),
    }
}
