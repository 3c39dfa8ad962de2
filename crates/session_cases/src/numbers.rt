//! Numbers and answers in a setting.
ghost use Rattle.std.specs.Prelude.{◌<◌, All, IfOk};

use std::alloc::{AllocError, Global};

/// The number that a word is, or another where it is none.
pub fn number_or(word: &str, other: usize) -> usize {
    word.parse::<usize>().unwrap_or(other)
}

/// The numbers among the words.
pub fn numbers(alloc: Global, words: &str) -> Result<Vec<u64>, AllocError> {
    let mut numbers = Vec::new(alloc);
    for word in words.split(' ') {
        if let Ok(number) = word.parse::<u64>() {
            numbers.push(number)?;
        }
    }
    Ok(numbers)
}

/// The sizes among the words, with 1 for 0.
pub fn sizes(alloc: Global, words: &str) -> Result<Vec<usize>, AllocError>
    ensures { IfOk result (λ sizes. All (λ size. 0 < size) sizes.items) }
{
    let mut sizes = Vec::new(alloc);
    for word in words.split(' ') {
        if let Ok(size) = word.parse::<usize>() {
            sizes.push(size.max(1))?;
        }
    }
    Ok(sizes)
}

/// Answers: each `yes`, or `no` for any other word.
pub fn answers(alloc: Global, words: &str) -> Result<Vec<bool>, AllocError> {
    let mut answers = Vec::new(alloc);
    for word in words.split(' ') {
        if !word.is_empty() {
            answers.push(word == "yes")?;
        }
    }
    Ok(answers)
}
