//! Lists of lines, and limits, from words.
use example_language::{Line, Listing};
use hl_base::OutOfMemory;
use std::alloc::Global;

/// How many branches a call may take, how much fuel there is, and how deep the call stands.
#[derive(Clone, Copy)]
pub struct Limits {
    pub branches: u32,
    pub fuel: u32,
    pub depth: u32,
}

impl Limits {
    /// Limits from three numbers with a blank between them.
    pub fn read(text: &str) -> Option<Limits> {
        let (branches, rest) = text.split_once(' ')?;
        let (fuel, depth) = rest.split_once(' ')?;
        Some(Limits {
            branches: branches.parse::<u32>().ok()?,
            fuel: fuel.parse::<u32>().ok()?,
            depth: depth.parse::<u32>().ok()?,
        })
    }
}

/// A line of one word.
fn plain_line(text: &str) -> Option<Line> {
    match text {
        "value" => Some(Line::SaysValue),
        "calls" => Some(Line::SaysCalls),
        "copy nothing" => Some(Line::CopiesNothing),
        "return" => Some(Line::ReturnsNow),
        "finish" => Some(Line::FinishesNow),
        _ => None,
    }
}

/// A line of a word and a number.
fn numbered_line(word: &str, number: u32) -> Option<Line> {
    match word {
        "says" => Some(Line::Says(number)),
        "sets" => Some(Line::Sets(number)),
        "skip" => Some(Line::SkipsTo(number)),
        "goto" => Some(Line::BranchesTo(number)),
        "if" => Some(Line::BranchesIf(number)),
        "label" => Some(Line::Labelled(number)),
        "call" => Some(Line::CallsList(number)),
        "copy" => Some(Line::CopiesList(number)),
        _ => None,
    }
}

/// The line that is worded so.
fn line(text: &str) -> Option<Line> {
    if let Some(line) = plain_line(text) {
        return Some(line);
    }
    let (word, digits) = text.split_once(' ')?;
    numbered_line(word, digits.parse::<u32>().ok()?)
}

/// The list of the lines that are worded so, with commas between them.
fn listing(alloc: Global, text: &str) -> Result<Option<Listing>, OutOfMemory> {
    let mut lines = Vec::new(alloc);
    if text.is_empty() {
        return Ok(Listing::new(lines));
    }
    for words in text.split(", ") {
        match line(words) {
            Some(line) => lines.push(line)?,
            None => return Ok(None),
        }
    }
    Ok(Listing::new(lines))
}

/// The lists that are worded so.
pub fn lists(alloc: Global, texts: &[String]) -> Result<Option<Vec<Listing>>, OutOfMemory> {
    let mut lists = Vec::new(alloc);
    for text in texts {
        match listing(alloc, text.as_str())? {
            Some(listing) => lists.push(listing)?,
            None => return Ok(None),
        }
    }
    Ok(Some(lists))
}
