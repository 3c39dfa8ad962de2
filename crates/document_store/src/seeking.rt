//! Where a line begins, sought from the place where a text is split: forward and back.
ghost use Rattle.std.specs.Prelude.{◌≡◌, ◌≤◌, ◌<◌, ◌+◌, List, ℕ, length, drop, take, slice_index, IsTrue, true};
ghost use Rattle.std.specs.Str.{chars, IsCharBoundary};
ghost use Rattle.memchr.specs.Find.{IsLastByte, is_byte2};
ghost use Rattle.document_store.specs.Parts.{text_in, parted, BeginsLine, IsBeforeLine};
ghost use Rattle.document_store.specs.Positions.{whole_lines};

use crate::lines::{ends_at, from_line};
use crate::split_text::SplitText;
use hl_base::is_crlf;
use memchr::memrchr2;

/// Lines are counted from the front so many times as fast as back.
const FASTER: u32 = 8;

/// The byte of a place; 0 behind the last.
fn byte_at(bytes: &[u8], at: usize) -> u8
    ensures { result ≡ slice_index bytes.now at }
{
    bytes.get(at).copied().unwrap_or(0)
}

/// Whether a line begins between two texts.
fn is_between_lines(front: &str, back: &str) -> bool
    ensures { IsTrue result → parted (chars front.now) (chars back.now) ≡ true }
{
    let size = front.len();
    if size == 0 {
        return true;
    }
    let last = byte_at(front.as_bytes(), size - 1);
    let next = byte_at(back.as_bytes(), 0);
    ends_at(last, next)
}

/// How many bytes the line end before a place has, if there is one.
fn end_before(bytes: &[u8], at: usize) -> usize
    requires { at ≤ length bytes.now }
    ensures { result ≤ at }
{
    if at >= 2 && is_crlf(&bytes[at - 2..at]) {
        return 2;
    }
    at.min(1)
}

/// Where the last LF or CR stands among the first bytes of a text.
fn last_end(text: &str, first: usize) -> Option<usize>
    requires { first ≤ length text.now }
    ensures { IsLastByte (is_byte2 10 13) (take first text.now) result }
{
    memrchr2(b'\n', b'\r', &text.as_bytes()[..first])
}

/// Where the line begins of which the end stands before a place, or the front of the text.
fn line_before(text: &str, at: usize) -> usize
    requires { at ≤ length text.now }
    ensures { IsCharBoundary text.now result }
{
    match last_end(text, at - end_before(text.as_bytes(), at)) {
        Some(last) => last + 1,
        None => 0,
    }
}

/// A place so many lines back from the end of a text that ends in a line end.
fn place_back(text: &str, lines: u32) -> usize
    ensures { IsCharBoundary text.now result }
{
    let mut at = text.len();
    for _ in 0..lines {
        at = line_before(text, at);
    }
    at
}

/// How many bytes of a text stand before its line of a number, from which this is the rest. The number is for the contract
/// alone.
fn bytes_over(text: &str, rest: &str, _line: u32) -> usize
    requires { whole_lines (chars rest.now) ≡ drop _line (whole_lines (chars text.now)) }
    ensures cut { IsCharBoundary text.now result }
    ensures rest { drop result text.now ≡ rest.now }
{
    text.len() - rest.len()
}

/// Whether the first lines of a text, so many of them, have so many bytes.
fn have_bytes(text: &str, lines: u32, bytes: usize) -> bool
    ensures { IsTrue result → whole_lines (chars (drop bytes text.now)) ≡ drop lines (whole_lines (chars text.now)) }
{
    match from_line(text, lines) {
        Some(rest) => bytes_over(text, rest, lines) == bytes,
        None => false,
    }
}

/// Goes back to the front of the text.
fn go_to_front(text: &mut SplitText) -> u32
    ensures text { text_in text.new ≡ text_in text.old }
    ensures size { length text.new.front + length text.new.back ≡ length text.old.front + length text.old.back }
    ensures line { result ≡ 0 }
    ensures before { IsBeforeLine 0 text.new }
{
    text.go_to_start();
    0
}

/// Goes back to the beginning of a line that is near, or to one before it.
fn go_back_lines(text: &mut SplitText, line: u32, wanted: u32) -> u32
    requires before { IsBeforeLine line text.old }
    requires back { wanted < line }
    ensures text { text_in text.new ≡ text_in text.old }
    ensures size { length text.new.front + length text.new.back ≡ length text.old.front + length text.old.back }
    ensures before { IsBeforeLine result text.new }
    ensures reached { result ≤ wanted }
{
    let at = place_back(text.front(), line - wanted);
    let passed = text.front().len() - at;
    text.go_back(at);
    if !is_between_lines(text.front(), text.back()) {
        return go_to_front(text);
    }
    if !have_bytes(text.back(), line - wanted, passed) {
        return go_to_front(text);
    }
    wanted
}

/// Goes to the beginning of a line, if it is there.
fn advance_lines(text: &mut SplitText, line: u32, wanted: u32) -> u32
    requires before { IsBeforeLine line text.old }
    requires ahead { line ≤ wanted }
    ensures text { text_in text.new ≡ text_in text.old }
    ensures size { length text.new.front + length text.new.back ≡ length text.old.front + length text.old.back }
    ensures before { IsBeforeLine result text.new }
    ensures reached { result ≤ wanted }
{
    if line == wanted {
        return line;
    }
    let back = text.back();
    let Some(rest) = from_line(back, wanted - line) else {
        return line;
    };
    let passed = bytes_over(back, rest, wanted - line);
    text.advance(passed);
    wanted
}

/// Goes back to the beginning of a line, which is sought from the front; where the text was split is for the contract alone.
fn return_to_line(text: &mut SplitText, _line: u32, wanted: u32) -> u32
    requires before { IsBeforeLine _line text.old }
    ensures text { text_in text.new ≡ text_in text.old }
    ensures size { length text.new.front + length text.new.back ≡ length text.old.front + length text.old.back }
    ensures before { IsBeforeLine result text.new }
    ensures reached { result ≤ wanted }
{
    let front = text.front();
    let Some(rest) = from_line(front, wanted) else {
        return go_to_front(text);
    };
    let at = bytes_over(front, rest, wanted);
    text.go_back(at);
    wanted
}

/// Splits the text before a line, or before an earlier one where it has no such line; where it was split before, the lines
/// are sought from there, unless they are sooner found from the front.
pub(crate) fn seek(text: &mut SplitText, line: u32, wanted: u32) -> u32
    requires before { IsBeforeLine line text.old }
    ensures text { text_in text.new ≡ text_in text.old }
    ensures size { length text.new.front + length text.new.back ≡ length text.old.front + length text.old.back }
    ensures before { IsBeforeLine result text.new }
    ensures reached { result ≤ wanted }
{
    if line <= wanted {
        return advance_lines(text, line, wanted);
    }
    if line - wanted > wanted / FASTER {
        return return_to_line(text, line, wanted);
    }
    let near = go_back_lines(text, line, wanted);
    advance_lines(text, near, wanted)
}

/// Where a line begins, in bytes, and which it is.
#[derive(Clone, Copy)]
pub(crate) struct LineStart {
    pub(crate) at: usize,
    pub(crate) line: u32,
}

/// The beginning of a line of a text, or its front where it has no such line.
pub(crate) fn line_start(text: &str, wanted: u32) -> LineStart
    ensures cut { IsCharBoundary text.now result.at }
    ensures line { whole_lines (chars (drop result.at text.now)) ≡ drop result.line (whole_lines (chars text.now)) }
{
    match from_line(text, wanted) {
        Some(rest) => LineStart {
            at: bytes_over(text, rest, wanted),
            line: wanted,
        },
        None => LineStart { at: 0, line: 0 },
    }
}

/// Splits a text before a line again, whose second part was changed.
pub(crate) fn settle(text: &mut SplitText, line: u32) -> u32
    ensures text { text_in text.new ≡ text_in text.old }
    ensures size { length text.new.front + length text.new.back ≡ length text.old.front + length text.old.back }
    ensures before { (earlier : List ℕ) → BeginsLine line (chars text.old.front) earlier → IsBeforeLine result text.new }
{
    if is_between_lines(text.front(), text.back()) {
        return line;
    }
    go_to_front(text)
}
