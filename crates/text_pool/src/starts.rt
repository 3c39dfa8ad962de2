//! Where the lines of a text begin.
ghost use Rattle.std.specs.Prelude.{◌≡◌, ◌≤◌, ◌<◌, ◌+◌, ℕ, length, IfOk, IfSome, slice_get};
ghost use Rattle.std.specs.Str.{chars, IsCharBoundary};
ghost use Rattle.std.specs.Option.{option_map};
ghost use Rattle.hl_base.specs.Texts as texts;
ghost use Rattle.text_pool.specs.Starts.{BeginsAt, AreStarts};

use crate::LONGEST_TEXT;
use hl_base::{OutOfMemory, end_of_line, is_crlf, lines};
use std::alloc::Global;

/// Where the next line begins; nothing where there is none.
fn next_start(text: &str, start: usize) -> Option<usize>
    requires short { length text.now ≤ LONGEST_TEXT }
    requires cut { IsCharBoundary text.now start }
    ensures { IfSome result (λ next. (line : ℕ) → BeginsAt text.now line start → BeginsAt text.now (line + 1) next) }
{
    let rest = &text[start..];
    let at = end_of_line(rest)?;
    if is_crlf(&rest.as_bytes()[at..]) {
        Some(start + at + 2)
    } else {
        Some(start + at + 1)
    }
}

/// Where each line of a text begins, in bytes.
pub(crate) fn line_starts(alloc: Global, text: &str) -> Result<Vec<u32>, OutOfMemory>
    requires { length text.now ≤ LONGEST_TEXT }
    ensures { IfOk result (λ starts. AreStarts text.now starts.items) }
{
    let mut starts = Vec::new(alloc);
    let mut start = 0;
    for _ in 0..text.len() {
        starts.push(start as u32)?;
        match next_start(text, start) {
            Some(next) => start = next,
            None => return Ok(starts),
        }
    }
    starts.push(start as u32)?;
    Ok(starts)
}

/// A line of a text, counted from 0, without its end.
pub(crate) fn line_at<'a>(text: &'a str, starts: &[u32], line: u32) -> Option<&'a str>
    requires { AreStarts text.now starts.now }
    ensures { option_map (λ found. chars found.now) result ≡ slice_get (texts.lines (chars text.now)) line }
{
    let near = (line as usize).min(starts.len() - 1);
    lines(&text[starts[near] as usize..]).nth(line as usize - near)
}
