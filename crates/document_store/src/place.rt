//! Places in a text: in bytes, in characters and in UTF-16 units.
ghost use Rattle.std.specs.Prelude.{◌≡◌, ◌+◌, ◌-◌, ◌≤◌, ℕ, ◌==◌, ◌||◌, ◌&&◌, not, nat_lt, IsTrue, if◌then◌else◌, length, take, drop, slice_get, option_map, false};
ghost use Rattle.std.specs.Str.{chars};
ghost use Rattle.hl_base.specs.Texts as texts;
ghost use Rattle.document_store.specs.Positions.{whole_lines, characters_before, line_of, place_of, column_of, position_of};
ghost use Rattle.document_store.specs.Edits.{is_after, is_backward, start_of, stop_of};
ghost use Rattle.document_store.specs.Places.{lines_behind, bytes_before, ArePlain};

use crate::lines::{NumberedLine, first_line, from_line, line_or_last};
use hl_base::{Position, units};
use text_pool::LONGEST_TEXT;

/// What stands before a place in a line.
#[derive(Clone, Copy)]
struct Before {
    characters: usize,
    bytes: usize,
}

/// A part of a text, in bytes.
#[derive(Clone, Copy)]
pub(crate) struct Span {
    pub(crate) start: usize,
    pub(crate) end: usize,
}

/// What stands in a line before a UTF-16 unit of it.
fn before_unit(line: &str, unit: u32) -> Before
    ensures characters { result.characters ≡ characters_before unit (chars line.now) }
    ensures bytes { result.bytes ≡ bytes_before (chars line.now) result.characters }
{
    let mut left = unit as usize;
    let mut before = Before {
        characters: 0,
        bytes: 0,
    };
    for c in line.chars() {
        let width = c.len_utf16();
        if left < width {
            break;
        }
        left -= width;
        before.characters += 1;
        before.bytes += c.len_utf8();
    }
    before
}

/// Whether a byte is a character by itself and ends no line.
fn is_plain(byte: u8) -> bool
    ensures { result ≡ (nat_lt byte 128 && not (byte == 10 || byte == 13)) }
{
    byte < 128 && !(byte == b'\n' || byte == b'\r')
}

/// Whether the first bytes of a text are characters by themselves and of its first line.
fn are_plain(text: &str, first: usize) -> bool
    ensures { IsTrue result → ArePlain first text.now }
{
    let bytes = text.as_bytes();
    if bytes.len() < first {
        return false;
    }
    for at in 0..first {
        if !is_plain(bytes[at]) {
            return false;
        }
    }
    true
}

/// How many bytes stand in the first line of a text before a UTF-16 unit of it. Where all of them are characters by
/// themselves, there are as many as units, and the end of the line is not sought.
fn bytes_before_unit(text: &str, unit: u32) -> usize
    ensures { result ≡ bytes_before (line_of (chars text.now) 0) (characters_before unit (line_of (chars text.now) 0)) }
{
    let units = unit as usize;
    if are_plain(text, units) {
        return units;
    }
    before_unit(first_line(text), unit).bytes
}

/// The width of the first characters of a line in UTF-16 units.
fn units_before(line: &str, characters: u32) -> usize
    ensures { result ≡ texts.units (take characters (chars line.now)) }
{
    let mut width = 0;
    let mut left = characters;
    for c in line.chars() {
        if left == 0 {
            break;
        }
        left -= 1;
        width += c.len_utf16();
    }
    width
}

/// The bytes before a position, where this is what stands in the text from its line on.
fn place_in(text: &str, rest: &str, at: Position) -> usize
    requires { whole_lines (chars rest.now) ≡ drop at.line (whole_lines (chars text.now)) }
    ensures { result ≡ bytes_before (chars text.now) (place_of (chars text.now) at) }
{
    text.len() - rest.len() + bytes_before_unit(rest, at.character)
}

/// The bytes before a position.
fn place(text: &str, at: Position) -> usize
    ensures { result ≡ bytes_before (chars text.now) (place_of (chars text.now) at) }
{
    match from_line(text, at.line) {
        None => text.len(),
        Some(rest) => place_in(text, rest, at),
    }
}

/// The bytes before a position that lies in what stands in the text from a line on, or behind it.
fn place_behind(text: &str, rest: &str, line: u32, at: Position) -> usize
    requires from { whole_lines (chars rest.now) ≡ drop line (whole_lines (chars text.now)) }
    requires behind { line ≤ at.line }
    ensures { result ≡ bytes_before (chars text.now) (place_of (chars text.now) at) }
{
    match from_line(rest, at.line - line) {
        None => text.len(),
        Some(last) => place_in(text, last, at),
    }
}

/// The part of a text between two positions, where this is what stands in the text from the line of the first on. An empty
/// part is sought once.
fn span_from(text: &str, rest: &str, from: Position, to: Position) -> Span
    requires from { whole_lines (chars rest.now) ≡ drop from.line (whole_lines (chars text.now)) }
    requires order { is_after from to ≡ false }
    ensures start { result.start ≡ bytes_before (chars text.now) (place_of (chars text.now) from) }
    ensures end { result.end ≡ bytes_before (chars text.now) (place_of (chars text.now) to) }
{
    let start = place_in(text, rest, from);
    if from.line == to.line && from.character == to.character {
        return Span { start, end: start };
    }
    let end = place_behind(text, rest, from.line, to);
    Span { start, end }
}

/// The part of a text between two positions, found in one pass.
fn span_between(text: &str, from: Position, to: Position) -> Span
    requires { is_after from to ≡ false }
    ensures start { result.start ≡ bytes_before (chars text.now) (place_of (chars text.now) from) }
    ensures end { result.end ≡ bytes_before (chars text.now) (place_of (chars text.now) to) }
{
    match from_line(text, from.line) {
        None => Span {
            start: text.len(),
            end: text.len(),
        },
        Some(rest) => span_from(text, rest, from, to),
    }
}

/// The part of a text that a change replaces. Without a start it begins where the text does, and without an end it ends
/// where the text does.
pub(crate) fn span_of(text: &str, from: Option<Position>, to: Option<Position>) -> Span
    requires { is_backward from to ≡ false }
    ensures start { result.start ≡ bytes_before (chars text.now) (start_of (chars text.now) from) }
    ensures end { result.end ≡ bytes_before (chars text.now) (stop_of (chars text.now) to) }
{
    match (from, to) {
        (Some(from), Some(to)) => span_between(text, from, to),
        (Some(from), None) => Span {
            start: place(text, from),
            end: text.len(),
        },
        (None, Some(to)) => Span {
            start: 0,
            end: place(text, to),
        },
        (None, None) => Span {
            start: 0,
            end: text.len(),
        },
    }
}

/// How many characters a line has.
fn characters(line: &str) -> usize
    ensures { result ≡ length (chars line.now) }
{
    line.chars().count()
}

/// How many characters stand before a position in the line where it lies.
fn characters_in(line: &NumberedLine<'_>, at: Position) -> usize
    ensures { result ≡ (if line.now.number == at.line then characters_before at.character (chars line.now.text.now) else length (chars line.now.text.now)) }
{
    if line.number == at.line {
        return before_unit(line.text, at.character).characters;
    }
    characters(line.text)
}

/// How wide the first columns of a line are in UTF-16 units; all of another line.
fn units_in(found: &NumberedLine<'_>, line: u32, column: u32) -> usize
    ensures { result ≡ (if found.now.number == line then texts.units (take (column - 1) (chars found.now.text.now)) else texts.units (chars found.now.text.now)) }
{
    if found.number == line {
        return units_before(found.text, column.saturating_sub(1));
    }
    units(found.text)
}

/// The line and the column of a position in a text of at most 4 MiB.
pub fn column(text: &str, at: Position) -> (u32, u32)
    requires { length text.now ≤ LONGEST_TEXT }
    ensures line { result.0 ≡ (column_of (chars text.now) at).0 }
    ensures column { result.1 ≡ (column_of (chars text.now) at).1 }
{
    let line = line_or_last(text, at.line);
    (line.number, characters_in(&line, at) as u32 + 1)
}

/// The same, where this is the line of the position; nothing where the text has no such line.
pub(crate) fn column_in(text: &str, line: Option<&str>, at: Position) -> (u32, u32)
    requires short { length text.now ≤ LONGEST_TEXT }
    requires line { option_map (λ found. chars found.now) line ≡ slice_get (texts.lines (chars text.now)) at.line }
    ensures line { result.0 ≡ (column_of (chars text.now) at).0 }
    ensures column { result.1 ≡ (column_of (chars text.now) at).1 }
{
    match line {
        Some(found) => (
            at.line,
            before_unit(found, at.character).characters as u32 + 1,
        ),
        None => column(text, at),
    }
}

/// The position of a column in a text of at most 4 MiB.
pub fn position(text: &str, line: u32, column: u32) -> Position
    requires { length text.now ≤ LONGEST_TEXT }
    ensures { result ≡ position_of (chars text.now) line column }
{
    let found = line_or_last(text, line);
    Position {
        line: found.number,
        character: units_in(&found, line, column) as u32,
    }
}
