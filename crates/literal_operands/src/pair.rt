//! The last pair of parentheses of a text.
ghost use Rattle.std.specs.Prelude.{◌≡◌, ◌==◌, ◌&&◌, not, ℕ, List, [], length, IfOk};
ghost use Rattle.std.specs.Str.{chars};
ghost use Rattle.hl_base.specs.Quoting.{IsBehind};
ghost use Rattle.literal_operands.specs.Pairs as pairs;

use hl_base::{Nesting, OutOfMemory};
use hlasm_statements::split_columns;
use operand_list::split_sublist;
use std::alloc::Global;

/// Whether a parenthesis opens here that stands outside quotes and all others.
fn opens(nesting: Nesting, c: char) -> bool
    ensures { (before : List ℕ) → IsBehind nesting before → result ≡ pairs.opens c before }
{
    c == '(' && nesting.depth() == 0 && !nesting.is_quoted(c)
}

/// How many characters stand before the last such parenthesis, if there is one.
fn last_open(text: &str) -> Result<Option<usize>, OutOfMemory>
    ensures { IfOk result (λ found. found ≡ pairs.last_open [] (chars text.now)) }
{
    let mut nesting = Nesting::new();
    let mut found = None;
    let mut at: usize = 0;
    for c in text.chars() {
        if opens(nesting, c) {
            found = Some(at);
        }
        nesting.read(c)?;
        at += 1;
    }
    Ok(found)
}

/// Whether a parenthesis at the front of what stands behind so many characters is closed by the last character.
fn is_closed(alloc: Global, text: &str, at: usize) -> Result<bool, OutOfMemory>
    ensures { IfOk result (λ closed. closed ≡ pairs.is_closed at (chars text.now)) }
{
    let pair = split_columns(text, at).1;
    Ok(split_sublist(alloc, pair)?.is_some())
}

/// How many characters stand before the last pair of parentheses of a text, if it ends with one.
pub(crate) fn last_pair(alloc: Global, text: &str) -> Result<Option<usize>, OutOfMemory>
    ensures { IfOk result (λ found. found ≡ pairs.last_pair (chars text.now)) }
{
    let Some(at) = last_open(text)? else {
        return Ok(None);
    };
    if is_closed(alloc, text, at)? {
        return Ok(Some(at));
    }
    Ok(None)
}
