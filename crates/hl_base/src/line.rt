//! The lines of a text, and how wide they are for the editor.
ghost use Rattle.std.specs.Prelude.{◌≡◌, ◌==◌, ◌+◌, ℕ, List, length, count_by, [], ◌∷◌, IsTrue, drop, slice_index, position};
ghost use Rattle.std.specs.List.{join_with_byte};
ghost use Rattle.std.specs.Str.{chars};
ghost use Rattle.hl_base.specs.Texts as texts;
ghost use Rattle.hl_base.specs.Remaining as remaining;

use memchr::memchr2;
use std::marker::Model;

/// The lines of a text that are left, each without its end. Contracts see the list of them.
#[derive(Drop)]
pub struct TextLines<'a> {
    rest: Option<&'a str>,
}

impl<'a> Model for TextLines<'a> {
    ghost use Rattle.std.specs.Prelude.{ℕ, List};
    ghost use Rattle.hl_base.specs.Remaining.{lines_of};

    ghost Value = { List (List ℕ) };

    ghost view = { λ s. lines_of s.rest };
}

/// The lines of a text, each without its end: LF, CRLF and CR end a line, and nothing else does. A text that ends
/// with a line end has an empty last line (Language Server Protocol 3.17, "Text Documents").
pub fn lines(text: &str) -> TextLines<'_>
    ensures { result ≡ texts.lines (chars text.now) }
{
    TextLines { rest: Some(text) }
}

impl<'a> Iterator for TextLines<'a> {
    ghost use Rattle.std.specs.Iterator.{YieldsFirstBy, item_count};
    ghost use Rattle.std.specs.Str.{chars};

    type Item = &'a str;

    ghost next_gives = { YieldsFirstBy (λ line. chars line.now) (λ left. left) };

    ghost remaining = { item_count (λ left. left) };

    fn next(&mut self) -> Option<&'a str> {
        let text = self.rest?;
        let (line, rest) = first_line(text);
        self.rest = rest;
        Some(line)
    }
}

/// The first line of a text, and what stands behind its end; nothing where the text is one line.
fn first_line(text: &str) -> (&str, Option<&str>)
    ensures { texts.lines (chars text.now) ≡ chars result.0.now ∷ remaining.lines_of result.1 }
{
    match end_of_line(text) {
        None => (text, None),
        Some(at) => {
            let (line, rest) = text.split_at(at);
            (line, Some(behind_end(rest)))
        }
    }
}

/// Where the first line end of a text begins, in bytes; nothing where it is one line.
pub fn end_of_line(text: &str) -> Option<usize>
    ensures { result ≡ position remaining.ends_line text.now }
{
    memchr2(b'\n', b'\r', text.as_bytes())
}

/// A text that begins with a line end, without that end.
fn behind_end(text: &str) -> &str
    requires { IsTrue (remaining.ends_line (slice_index text.now 0)) }
    ensures { texts.lines (chars text.now) ≡ [] ∷ texts.lines (chars result.now) }
{
    if is_crlf(text.as_bytes()) {
        &text[2..]
    } else {
        &text[1..]
    }
}

/// Whether bytes begin with CR LF.
pub fn is_crlf(bytes: &[u8]) -> bool
    ensures { result ≡ texts.begins_crlf (slice_index bytes.now 0) (drop 1 bytes.now) }
{
    bytes.len() > 1 && bytes[0] == b'\r' && bytes[1] == b'\n'
}

/// The width of a line in UTF-16 units, as positions of the editor count it.
pub fn units(line: &str) -> usize
    ensures { result ≡ texts.units (chars line.now) }
{
    let mut width = 0;
    for c in line.chars() {
        width += c.len_utf16();
    }
    width
}

/// A text has one line more than it has line ends, and its lines, joined by LFs, are the text with a LF for every end.
pub fn lines_are_between_ends()
    ensures count { (text : List ℕ) → length (texts.lines text) ≡ count_by (λ c. c == 10) (texts.with_line_feeds text) + 1 }
    ensures joined { (text : List ℕ) → join_with_byte 10 (texts.lines text) ≡ texts.with_line_feeds text }
{}
