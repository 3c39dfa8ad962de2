//! Columns of a line, counted in characters.
ghost use Rattle.std.specs.Prelude.{◌≡◌, ◌≤◌, ◌<◌, not, IsTrue, length, take, drop, slice_index, slice_index_or, encode_utf8_all};
ghost use Rattle.std.specs.List.{list_all, prefix_len, position};
ghost use Rattle.std.specs.Str.{chars, IsAscii};
ghost use Rattle.hlasm_statements.specs.Columns as columns;
ghost use Rattle.hlasm_statements.specs.Reading as reading;
ghost use Rattle.hlasm_statements.specs.Reading.{IsFront};

use crate::text::character_count;

/// Whether a character is a blank or a tab.
#[inline(always)]
pub fn is_blank(c: char) -> bool
    ensures { result ≡ columns.is_blank c }
{
    c == ' ' || c == '\t'
}

/// Whether a text has nothing but blanks and tabs.
pub fn is_all_blank(text: &str) -> bool
    ensures { result ≡ list_all columns.is_blank (chars text.now) }
{
    text.chars().all(is_blank)
}

/// Whether a text begins with a character other than a blank.
pub fn begins_marked(text: &str) -> bool
    ensures { result ≡ columns.is_ink (slice_index_or (chars text.now) 0 32) }
{
    text.chars().next().is_some_and(|c| !is_blank(c))
}

/// Some characters at the front of a text, how many they are, and what stands behind them.
#[derive(Clone, Copy)]
pub struct Front<'a> {
    pub text: &'a str,
    pub count: usize,
    pub behind: &'a str,
}

/// The first columns of a text, as many as are asked for, and what stands behind them.
#[inline(always)]
pub fn split_columns(text: &str, count: usize) -> (&str, &str)
    ensures front { chars result.0.now ≡ take count (chars text.now) }
    ensures back { chars result.1.now ≡ drop count (chars text.now) }
{
    let end = count.min(text.len());
    if begins_ascii(text, end) {
        return text.split_at(end);
    }
    split_characters(text, count)
}

/// Whether so many bytes at the front of a text are ASCII, so that each is a column. Of up to 64 bytes each half is seen in
/// a few steps.
#[inline(always)]
fn begins_ascii(text: &str, count: usize) -> bool
    requires { count ≤ length text.now }
    ensures { IsTrue result → IsAscii (take count text.now) }
{
    let (front, back) = text.as_bytes()[..count].split_at(count / 2);
    front.is_ascii() && back.is_ascii()
}

/// The same of any text.
#[inline(never)]
fn split_characters(text: &str, count: usize) -> (&str, &str)
    ensures front { chars result.0.now ≡ take count (chars text.now) }
    ensures back { chars result.1.now ≡ drop count (chars text.now) }
{
    let rest = behind_columns(text, count);
    text.split_at(text.len() - rest.len())
}

fn behind_columns(text: &str, count: usize) -> &str
    ensures { result.now ≡ encode_utf8_all (drop count (chars text.now)) }
{
    let mut rest = text.chars();
    for _ in 0..count {
        if rest.next().is_none() {
            return "";
        }
    }
    rest.as_str()
}

/// What stands before the first blank of a text. Where that is ASCII, each character is a byte.
#[inline(always)]
pub fn front_word(text: &str) -> Front<'_>
    ensures { IsFront result (prefix_len columns.is_ink (chars text.now)) (chars text.now) }
{
    let bytes = text.as_bytes();
    let count = ascii_length(bytes);
    if !is_ascii_at(bytes, count) {
        return front_characters(text);
    }
    let (front, behind) = text.split_at(count);
    Front {
        text: front,
        count,
        behind,
    }
}

/// The same of any text.
#[inline(never)]
fn front_characters(text: &str) -> Front<'_>
    ensures { IsFront result (prefix_len columns.is_ink (chars text.now)) (chars text.now) }
{
    let count = character_length(text);
    let (front, behind) = split_columns(text, count);
    Front {
        text: front,
        count,
        behind,
    }
}

/// The blanks at the front of a text. They are ASCII, so each is a byte.
#[inline(always)]
pub fn front_blanks(text: &str) -> Front<'_>
    ensures { IsFront result (prefix_len columns.is_blank (chars text.now)) (chars text.now) }
{
    let count = blanks_length(text.as_bytes());
    let (front, behind) = text.split_at(count);
    Front {
        text: front,
        count,
        behind,
    }
}

/// How many bytes at the front are blanks.
fn blanks_length(bytes: &[u8]) -> usize
    ensures { result ≡ prefix_len columns.is_blank bytes.now }
{
    match first_other(bytes) {
        Some(count) => count,
        None => bytes.len(),
    }
}

fn first_other(bytes: &[u8]) -> Option<usize>
    ensures { result ≡ position columns.is_ink bytes.now }
{
    bytes
        .iter()
        .position(|byte| !(*byte == b' ' || *byte == b'\t'))
}

/// How many bytes at the front are ASCII and no blanks.
fn ascii_length(bytes: &[u8]) -> usize
    ensures { result ≡ prefix_len reading.is_ascii_ink bytes.now }
{
    match first_beyond(bytes) {
        Some(count) => count,
        None => bytes.len(),
    }
}

fn first_beyond(bytes: &[u8]) -> Option<usize>
    ensures { result ≡ position (λ b. not (reading.is_ascii_ink b)) bytes.now }
{
    bytes.iter().position(|byte| !is_ascii_ink(*byte))
}

#[inline(always)]
fn is_ascii_ink(byte: u8) -> bool
    ensures { result ≡ reading.is_ascii_ink byte }
{
    byte < 128 && !(byte == b' ' || byte == b'\t')
}

/// Whether there is no byte in this place but an ASCII one.
fn is_ascii_at(bytes: &[u8], at: usize) -> bool
    ensures { IsTrue result → slice_index bytes.now at < 128 }
{
    at >= bytes.len() || bytes[at] < 128
}

fn character_length(text: &str) -> usize
    ensures { result ≡ prefix_len columns.is_ink (chars text.now) }
{
    match first_blank(text) {
        Some(count) => count,
        None => character_count(text),
    }
}

fn first_blank(text: &str) -> Option<usize>
    ensures { result ≡ position columns.is_blank (chars text.now) }
{
    text.chars().position(is_blank)
}
