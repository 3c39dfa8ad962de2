//! Calls of chains, and what each answers.
use chain_arena::Chains;
use hl_base::OutOfMemory;
use std::alloc::{AllocError, Global};

/// What stands before the first blank, and what stands behind it.
fn cut(words: &str) -> (&str, &str) {
    words.split_once(' ').unwrap_or((words, ""))
}

/// A number, or 0 where the word is none.
fn number(word: &str) -> u32 {
    word.parse::<u32>().unwrap_or(0)
}

/// `add LEFT RIGHT ITEM`.
fn add(alloc: Global, chains: &mut Chains<char>, words: &str) -> Result<String, AllocError> {
    let (left, words) = cut(words);
    let (right, item) = cut(words);
    let item = item.chars().next().unwrap_or('?');
    let is_added = chains.add(alloc, number(left), number(right), item).is_ok();
    String::from_str(alloc, if is_added { "ok" } else { "no room" })
}

/// `left NUMBER`: the first item of its list, and whether there are more.
fn left(alloc: Global, chains: &Chains<char>, number: u32) -> Result<String, AllocError> {
    match chains.first_left(number) {
        Some(link) => {
            let item = *chains.item(link);
            let has_more = chains.next_left(link).is_some();
            format!(in alloc; "{item}{}", if has_more { ".." } else { "" })
        }
        None => String::from_str(alloc, "none"),
    }
}

/// `right NUMBER`: the first item of its list, and whether there are more.
fn right(alloc: Global, chains: &Chains<char>, number: u32) -> Result<String, AllocError> {
    match chains.first_right(number) {
        Some(link) => {
            let item = *chains.item(link);
            let has_more = chains.next_right(link).is_some();
            format!(in alloc; "{item}{}", if has_more { ".." } else { "" })
        }
        None => String::from_str(alloc, "none"),
    }
}

/// `unlink NUMBER`: takes the first link of a left number out, and tells what it carried.
fn unlink(alloc: Global, chains: &mut Chains<char>, number: u32) -> Result<String, AllocError> {
    match chains.first_left(number) {
        Some(link) => {
            let item = chains.unlink(link);
            format!(in alloc; "{item}")
        }
        None => String::from_str(alloc, "none"),
    }
}

/// `unlink_right NUMBER`: how many links were taken out.
fn unlink_right(
    alloc: Global,
    chains: &mut Chains<char>,
    number: u32,
) -> Result<String, AllocError> {
    format!(in alloc; "{}", chains.unlink_right(number))
}

/// What a call answers.
fn answer(alloc: Global, chains: &mut Chains<char>, call: &str) -> Result<String, AllocError> {
    match cut(call) {
        ("add", words) => add(alloc, chains, words),
        ("left", word) => left(alloc, chains, number(word)),
        ("right", word) => right(alloc, chains, number(word)),
        ("unlink", word) => unlink(alloc, chains, number(word)),
        ("unlink_right", word) => unlink_right(alloc, chains, number(word)),
        _ => String::from_str(alloc, "no call"),
    }
}

/// What the calls answer in turn, with semicolons between them.
pub fn answers(alloc: Global, calls: &[String]) -> Result<String, OutOfMemory> {
    let mut chains = Chains::new(alloc);
    let mut answers = String::new(alloc);
    for call in calls {
        if !answers.is_empty() {
            answers.push_str("; ")?;
        }
        answers.push_str(answer(alloc, &mut chains, call.as_str())?.as_str())?;
    }
    Ok(answers)
}
