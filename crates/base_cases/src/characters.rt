//! Characters, lines and names of texts, and quotes and parentheses among them.
use hl_base::{Name, Nesting, OutOfMemory, Text, compare, ebcdic, lines, units};
use std::alloc::{AllocError, Global};

/// A name, or that a text is none.
pub fn named(alloc: Global, name: Option<Name>) -> Result<String, OutOfMemory> {
    match name {
        Some(name) => Ok(String::from_str(alloc, name.text())?),
        None => Ok(String::from_str(alloc, "none")?),
    }
}

/// The lines of a text, each in brackets.
pub fn bracketed_lines(alloc: Global, text: &str) -> Result<String, OutOfMemory> {
    let mut shown = String::new(alloc);
    for line in lines(text) {
        shown.push_str("[")?;
        shown.push_str(line)?;
        shown.push_str("]")?;
    }
    Ok(shown)
}

/// The width of a line.
pub fn width(alloc: Global, line: &str) -> Result<String, OutOfMemory> {
    Ok(format!(in alloc; "{}", units(line))?)
}

/// The byte of each character of a text in code page 037, as two hexadecimal digits.
pub fn bytes(alloc: Global, text: &str) -> Result<String, OutOfMemory> {
    let mut shown = String::new(alloc);
    for c in text.chars() {
        shown.push_str(format!(in alloc; "{:02X};", ebcdic(c))?.as_str())?;
    }
    Ok(shown)
}

/// What the first of two texts is to the other.
pub fn order(alloc: Global, one: &str, other: &str) -> Result<String, OutOfMemory> {
    Ok(format!(in alloc; "{:?}", compare(one, other))?)
}

/// What a character stands in: `q` within quotes, else how many parentheses are open.
fn push_place(shown: &mut String, nesting: Nesting, c: char) -> Result<(), AllocError> {
    if nesting.is_quoted(c) {
        return shown.push('q');
    }
    shown.push(char::from_digit(nesting.depth() % 10, 10).unwrap_or('?'))
}

/// The same of each character of a text; behind them `*` where a blank would stand within quotes, else a dot.
pub fn nesting(alloc: Global, text: &str) -> Result<String, OutOfMemory> {
    let mut nesting = Nesting::new();
    let mut shown = String::new(alloc);
    for c in text.chars() {
        push_place(&mut shown, nesting, c)?;
        nesting.read(c)?;
    }
    shown.push(if nesting.is_quoted(' ') { '*' } else { '.' })?;
    Ok(shown)
}

/// The copy of a text that grew by each part.
pub fn grown(alloc: Global, parts: &[String]) -> Result<String, OutOfMemory> {
    let mut text = Text::new(alloc);
    for part in parts {
        text.push_str(part.as_str())?;
    }
    if text.is_empty() {
        return Ok(String::from_str(alloc, "empty")?);
    }
    Ok(String::from_str(alloc, text.copy(alloc)?.as_str())?)
}
