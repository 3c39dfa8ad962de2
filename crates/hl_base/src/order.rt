//! The order of characters on the mainframe: EBCDIC, code page 037.
ghost use Rattle.std.specs.Prelude.{◌≡◌, length};
ghost use Rattle.std.specs.Cmp.{IsTotalOrder};
ghost use Rattle.std.specs.Str.{chars};
ghost use Rattle.hl_base.specs.Order as codes;

use std::cmp::Ordering;

/// The bytes of the printable characters of ASCII, from the blank to `~`, in code page 037.
const CODE_PAGE_037: [u8; 95] = [
    0x40, 0x5A, 0x7F, 0x7B, 0x5B, 0x6C, 0x50, 0x7D, 0x4D, 0x5D, 0x5C, 0x4E, 0x6B, 0x60, 0x4B, 0x61,
    0xF0, 0xF1, 0xF2, 0xF3, 0xF4, 0xF5, 0xF6, 0xF7, 0xF8, 0xF9, 0x7A, 0x5E, 0x4C, 0x7E, 0x6E, 0x6F,
    0x7C, 0xC1, 0xC2, 0xC3, 0xC4, 0xC5, 0xC6, 0xC7, 0xC8, 0xC9, 0xD1, 0xD2, 0xD3, 0xD4, 0xD5, 0xD6,
    0xD7, 0xD8, 0xD9, 0xE2, 0xE3, 0xE4, 0xE5, 0xE6, 0xE7, 0xE8, 0xE9, 0xBA, 0xE0, 0xBB, 0xB0, 0x6D,
    0x79, 0x81, 0x82, 0x83, 0x84, 0x85, 0x86, 0x87, 0x88, 0x89, 0x91, 0x92, 0x93, 0x94, 0x95, 0x96,
    0x97, 0x98, 0x99, 0xA2, 0xA3, 0xA4, 0xA5, 0xA6, 0xA7, 0xA8, 0xA9, 0xC0, 0x4F, 0xD0, 0xA1,
];

/// The byte of a character in code page 037; a tab has the blank's, and every character outside printable ASCII
/// X'3F'.
pub fn ebcdic(c: char) -> u8
    ensures { result ≡ codes.ebcdic c }
{
    if c == '\t' {
        return 0x40;
    }
    if c < ' ' || c > '~' {
        return 0x3F;
    }
    CODE_PAGE_037[(c as u32 - 32) as usize]
}

/// Which of two texts is the lesser: the shorter one by characters, and of equally long ones that with the lesser
/// byte in code page 037 where they first differ (SC26-4940, "Comparisons").
pub fn compare(a: &str, b: &str) -> Ordering
    ensures { result ≡ codes.compare (chars a.now) (chars b.now) }
{
    match character_count(a).cmp(&character_count(b)) {
        Ordering::Equal => compare_bytes(a, b),
        unequal => unequal,
    }
}

/// How many characters a text has.
fn character_count(text: &str) -> usize
    ensures { result ≡ length (chars text.now) }
{
    text.chars().count()
}

/// Which of two texts is the lesser by their bytes in code page 037.
fn compare_bytes(a: &str, b: &str) -> Ordering
    ensures { result ≡ codes.compare_bytes (chars a.now) (chars b.now) }
{
    a.chars()
        .map(|c| ebcdic(c))
        .cmp(b.chars().map(|c| ebcdic(c)))
}

/// Texts are totally ordered; those that differ only in characters outside printable ASCII are equal in it.
pub fn texts_are_ordered()
    ensures { IsTotalOrder codes.compare }
{}
