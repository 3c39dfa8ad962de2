//! The lines of a text, reached from its front.
ghost use Rattle.std.specs.Prelude.{◌≡◌, ◌<◌, ◌≤◌, ◌==◌, ◌||◌, ◌&&◌, not, length, drop, min, slice_index, IsTrue, IfSome, position};
ghost use Rattle.std.specs.Str.{chars, IsCharBoundary};
ghost use Rattle.hl_base.specs.Texts as texts;
ghost use Rattle.hl_base.specs.Remaining.{ends_line};
ghost use Rattle.document_store.specs.Positions.{whole_lines, line_of, last_line};
ghost use Rattle.document_store.specs.Places.{lines_behind, line_ends};

use hl_base::{end_of_line, is_crlf};

/// A line of a text, without its end, and its number, counted from 0.
#[derive(Clone, Copy)]
pub(crate) struct NumberedLine<'a> {
    pub(crate) number: u32,
    pub(crate) text: &'a str,
}

/// What is left of a text, and how many line ends stand in it before the line that is looked for.
#[derive(Clone, Copy)]
struct Ahead<'a> {
    text: &'a str,
    ends: u32,
}

/// The most bytes that are looked through at once. So few that their line ends are counted in a byte, which is fast.
const BLOCK: usize = 224;

/// Up to so many lines are passed one by one, and no block is counted.
const NEAR: u32 = 8;

/// Whether a line ends at a byte that stands before another.
pub(crate) fn ends_at(byte: u8, next: u8) -> bool
    ensures { result ≡ ((byte == 10 || byte == 13) && not (byte == 13 && next == 10)) }
{
    (byte == b'\n' || byte == b'\r') && !(byte == b'\r' && next == b'\n')
}

/// How many lines end in the first bytes, behind which is another.
fn ends_in(bytes: &[u8], first: usize) -> u8
    requires within { first < length bytes.now }
    requires few { first ≤ BLOCK }
    ensures { result ≡ line_ends first bytes.now }
{
    let mut count = 0;
    for at in 0..first {
        if ends_at(bytes[at], bytes[at + 1]) {
            count += 1;
        }
    }
    count
}

/// Where a block at the front of a text ends, before a character; nothing where the text is no longer.
fn end_of_block(text: &str) -> Option<usize>
    ensures cut { IfSome result (λ at. IsCharBoundary text.now at) }
    ensures within { IfSome result (λ at. at < length text.now) }
    ensures few { IfSome result (λ at. at ≤ BLOCK) }
{
    let bytes = text.as_bytes();
    if bytes.len() <= BLOCK {
        return None;
    }
    for at in BLOCK - 3..BLOCK + 1 {
        if bytes[at] < 128 || bytes[at] >= 192 {
            return Some(at);
        }
    }
    None
}

/// Passes a block that has fewer line ends than are looked for; nothing where none comes.
fn behind_block(ahead: Ahead<'_>) -> Option<Ahead<'_>>
    ensures { IfSome result (λ next. drop next.ends (whole_lines (chars next.text.now)) ≡ drop ahead.entry.ends (whole_lines (chars ahead.entry.text.now))) }
{
    let at = end_of_block(ahead.text)?;
    let ends = u32::from(ends_in(ahead.text.as_bytes(), at));
    if ends >= ahead.ends {
        return None;
    }
    let (_, text) = ahead.text.split_at(at);
    Some(Ahead {
        text,
        ends: ahead.ends - ends,
    })
}

/// Passes blocks of a text until a line is near.
fn near_line(text: &str, line: u32) -> Ahead<'_>
    ensures { drop result.ends (whole_lines (chars result.text.now)) ≡ drop line (whole_lines (chars text.now)) }
{
    let mut ahead = Ahead { text, ends: line };
    for _ in 0..text.len() {
        match behind_block(ahead) {
            Some(next) => ahead = next,
            None => return ahead,
        }
    }
    ahead
}

/// A text that begins with a line end, without that end.
fn behind_end(text: &str) -> &str
    requires { IsTrue (ends_line (slice_index text.now 0)) }
    ensures { whole_lines (chars result.now) ≡ drop 1 (whole_lines (chars text.now)) }
{
    if is_crlf(text.as_bytes()) {
        &text[2..]
    } else {
        &text[1..]
    }
}

/// What stands behind the first line end of a text; nothing where it has none.
fn behind_first_line(text: &str) -> Option<&str>
    ensures { lines_behind result ≡ drop 1 (whole_lines (chars text.now)) }
{
    let at = end_of_line(text)?;
    let (_, rest) = text.split_at(at);
    Some(behind_end(rest))
}

/// The first line of a text, without its end.
pub(crate) fn first_line(text: &str) -> &str
    ensures { chars result.now ≡ line_of (chars text.now) 0 }
{
    match end_of_line(text) {
        None => text,
        Some(at) => {
            let (line, _) = text.split_at(at);
            line
        }
    }
}

/// What stands in a text behind so many line ends; nothing where it has fewer.
fn behind_ends(text: &str, ends: u32) -> Option<&str>
    ensures { lines_behind result ≡ drop ends (whole_lines (chars text.now)) }
{
    let mut rest = text;
    for _ in 0..ends {
        rest = behind_first_line(rest)?;
    }
    Some(rest)
}

/// What stands in a text from a line on; nothing where there is no such line.
pub(crate) fn from_line(text: &str, line: u32) -> Option<&str>
    ensures { lines_behind result ≡ drop line (whole_lines (chars text.now)) }
{
    if line <= NEAR {
        return behind_ends(text, line);
    }
    let near = near_line(text, line);
    behind_ends(near.text, near.ends)
}

/// The line of a number, or the last line where there is none.
pub(crate) fn line_or_last(text: &str, line: u32) -> NumberedLine<'_>
    ensures number { result.number ≡ min line (last_line (chars text.now)) }
    ensures text { chars result.text.now ≡ line_of (chars text.now) result.number }
{
    let mut rest = text;
    for number in 0..line {
        match behind_first_line(rest) {
            Some(next) => rest = next,
            None => {
                return NumberedLine {
                    number,
                    text: first_line(rest),
                };
            }
        }
    }
    NumberedLine {
        number: line,
        text: first_line(rest),
    }
}
