//! Words and numbers of a field.
use std::alloc::AllocError;

/// What stands before the first blank, and what stands behind it.
pub fn cut(words: &str) -> (&str, &str) {
    words.split_once(' ').unwrap_or((words, ""))
}

/// A number, or 0 where the word is none.
pub fn number(word: &str) -> u32 {
    word.parse::<u32>().unwrap_or(0)
}

/// Adds a part behind the others, with a sign between them.
pub fn add_part(parts: &mut String, sign: &str, part: &str) -> Result<(), AllocError> {
    if !parts.is_empty() {
        parts.push_str(sign)?;
    }
    parts.push_str(part)
}
