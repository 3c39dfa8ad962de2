//! Characters that are written by a backslash: `\n`, `\r`, `\t`, `\0`, `\s` for a blank, `\e` for nothing, `\\`, `\u{HEX}`,
//! `\{COUNT:TEXT}` for so many times a text, and `\{COLUMN}` for blanks up to that column of the line, the first being 1.
use std::alloc::{AllocError, Global};

/// A text so many times.
fn push_repeated(text: &mut String, part: &str, count: u32) -> Result<(), AllocError> {
    for _ in 0..count {
        text.push_str(part)?;
    }
    Ok(())
}

/// How many characters the last line of a text has.
fn columns(text: &str) -> u32 {
    let mut columns = 0u32;
    for c in text.chars() {
        columns = match c {
            '\n' | '\r' => 0,
            _ => columns.saturating_add(1),
        };
    }
    columns
}

/// Blanks up to a column of the last line.
fn push_blanks(text: &mut String, column: u32) -> Result<(), AllocError> {
    let count = column.saturating_sub(columns(text.as_str()));
    push_repeated(text, " ", count)
}

/// The number that digits are.
fn number(digits: &str) -> u32 {
    digits.parse::<u32>().unwrap_or(0)
}

/// What stands in the braces of `\{COUNT:TEXT}` or of `\{COLUMN}`.
fn push_times(text: &mut String, inside: &str) -> Result<(), AllocError> {
    match inside.split_once(':') {
        Some((count, part)) => push_repeated(text, part, number(count)),
        None => push_blanks(text, number(inside)),
    }
}

/// The value of hexadecimal digits, up to six of them.
fn hexadecimal(digits: &str) -> u32 {
    let mut value = 0u32;
    for digit in digits.chars() {
        let digit = digit.to_digit(16).unwrap_or(0);
        value = value.wrapping_mul(16).wrapping_add(digit);
    }
    value
}

/// What stands in the braces of `\u{HEX}`.
fn push_character(text: &mut String, digits: &str) -> Result<(), AllocError> {
    match char::from_u32(hexadecimal(digits)) {
        Some(c) => text.push(c),
        None => Ok(()),
    }
}

/// The character that a letter behind a backslash stands for.
fn named(letter: char) -> &'static str {
    match letter {
        'n' => "\n",
        'r' => "\r",
        't' => "\t",
        '0' => "\0",
        's' => " ",
        _ => "",
    }
}

/// What stands behind a backslash, up to the next one.
fn push_escape(text: &mut String, part: &str) -> Result<(), AllocError> {
    if let Some(rest) = part.strip_prefix("u{") {
        let (digits, behind) = rest.split_once('}').unwrap_or((rest, ""));
        push_character(text, digits)?;
        return text.push_str(behind);
    }
    if let Some(rest) = part.strip_prefix("{") {
        let (inside, behind) = rest.split_once('}').unwrap_or((rest, ""));
        push_times(text, inside)?;
        return text.push_str(behind);
    }
    let mut characters = part.chars();
    if let Some(letter) = characters.next() {
        text.push_str(named(letter))?;
    }
    text.push_str(characters.as_str())
}

/// The text that is written so.
pub fn plain(alloc: Global, written: &str) -> Result<String, AllocError> {
    let mut text = String::new(alloc);
    let mut is_plain = true;
    for part in written.split('\\') {
        if is_plain {
            text.push_str(part)?;
            is_plain = false;
        } else if part.is_empty() {
            text.push('\\')?;
            is_plain = true;
        } else {
            push_escape(&mut text, part)?;
        }
    }
    Ok(text)
}
