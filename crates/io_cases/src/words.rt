//! Words and numbers of a field.
ghost use Rattle.std.specs.Prelude.{◌<◌, All, IsTrue};

use std::alloc::{AllocError, Global};

/// What stands before the first blank, and what stands behind it.
pub fn cut(words: &str) -> (&str, &str) {
    words.split_once(' ').unwrap_or((words, ""))
}

/// What stands before the first semicolon, and what stands behind it and its blank.
pub fn part(words: &str) -> (&str, &str) {
    words.split_once("; ").unwrap_or((words, ""))
}

/// A number, or 0 where the word is none.
pub fn number(word: &str) -> usize {
    word.parse::<usize>().unwrap_or(0)
}

/// The numbers of calls that fail.
pub fn numbers(alloc: Global, words: &str) -> Result<Vec<u64>, AllocError> {
    let mut numbers = Vec::new(alloc);
    for word in words.split(' ') {
        if let Ok(number) = word.parse::<u64>() {
            numbers.push(number)?;
        }
    }
    Ok(numbers)
}

/// The sizes of pieces.
pub fn sizes(alloc: Global, words: &str) -> Result<Vec<usize>, AllocError> {
    let mut sizes = Vec::new(alloc);
    for word in words.split(' ') {
        if let Ok(size) = word.parse::<usize>() {
            sizes.push(size)?;
        }
    }
    Ok(sizes)
}

/// Whether each size is at least 1.
pub fn is_positive(sizes: &[usize]) -> bool
    ensures { IsTrue result → All (λ size. 0 < size) sizes.now }
{
    for size in sizes {
        if *size == 0 {
            return false;
        }
    }
    true
}

/// Adds a part behind the others, with a sign between them.
pub fn add_part(parts: &mut String, sign: &str, part: &str) -> Result<(), AllocError> {
    if !parts.is_empty() {
        parts.push_str(sign)?;
    }
    parts.push_str(part)
}

/// Adds an answer behind the others.
pub fn add_answer(answers: &mut String, answer: &str) -> Result<(), AllocError> {
    add_part(answers, "; ", answer)
}
