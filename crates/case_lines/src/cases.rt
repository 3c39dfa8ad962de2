//! Cases, a line each.
use crate::escapes::plain;
use hl_base::OutOfMemory;
use std::alloc::{AllocError, Global};

/// The tables of a program: each by its word, and what it answers.
pub trait CaseTable {
    /// The table of this word, if there is one.
    fn named(word: &str) -> Option<Self>;

    /// What is answered to the fields of a case.
    fn answer(&self, alloc: Global, fields: &[String]) -> Result<String, OutOfMemory>;
}

/// What a line comes to; what is to be said of a case whose answer differs.
#[derive(Drop)]
pub enum Outcome {
    NoCase,
    Passed,
    Failed(String),
}

/// The fields of what is read.
fn fields(alloc: Global, input: &str) -> Result<Vec<String>, AllocError> {
    let mut fields = Vec::new(alloc);
    for field in input.split(" | ") {
        fields.push(plain(alloc, field)?)?;
    }
    Ok(fields)
}

/// A case whose answer differs.
fn differing(alloc: Global, line: &str, got: &str) -> Result<Outcome, AllocError> {
    Ok(Outcome::Failed(format!(in alloc; "{line}, but it is {got}")?))
}

/// A case with its wanted answer.
fn compared_case<T: CaseTable>(
    alloc: Global,
    table: &T,
    line: &str,
    input: &str,
    wanted: &str,
) -> Result<Outcome, OutOfMemory> {
    let fields = fields(alloc, input)?;
    let got = table.answer(alloc, fields.as_slice())?;
    if got.as_str() == plain(alloc, wanted)?.as_str() {
        return Ok(Outcome::Passed);
    }
    Ok(differing(alloc, line, got.as_str())?)
}

/// One line; an empty one and one that begins with `#` is no case.
pub fn compared<T: CaseTable>(
    alloc: Global,
    table: &T,
    line: &str,
) -> Result<Outcome, OutOfMemory> {
    if line.is_empty() || line.starts_with('#') {
        return Ok(Outcome::NoCase);
    }
    match line.split_once(" => ") {
        Some((input, wanted)) => compared_case(alloc, table, line, input, wanted),
        None => Ok(Outcome::Failed(format!(in alloc; "{line} has no answer")?)),
    }
}
