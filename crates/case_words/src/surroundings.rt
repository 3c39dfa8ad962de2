//! What surrounds an expression or a statement, as a case words it.
ghost use Rattle.std.specs.Prelude.{◌≡◌, IfOk};

use cond_expr::{Found, Lookups};
use hl_base::{Answer, Attr, Key, Name, OutOfMemory, SetValue, Text};
use std::alloc::Global;

/// Every variable symbol without a subscript stands for one thing, every one with a subscript for another, and every key
/// has the same answer, if any.
#[derive(Drop)]
pub struct Surroundings {
    plain: Found,
    indexed: Found,
    positionals: u32,
    answer: Option<Answer>,
}

/// The same once more.
fn copied(alloc: Global, found: &Found) -> Result<Found, OutOfMemory>
    ensures { IfOk result (λ copy. copy ≡ found.now) }
{
    match found {
        Found::Value(value) => Ok(Found::Value(value.copy(alloc)?)),
        Found::Parameter(text) => Ok(Found::Parameter(text.copy(alloc)?)),
        Found::Fault(code) => Ok(Found::Fault(*code)),
        Found::Ask(key) => Ok(Found::Ask(key.copy())),
    }
}

impl Lookups for Surroundings {
    ghost use Rattle.std.specs.Prelude.{length, nat_lt, if◌then◌else◌};

    ghost told = { λ s. record {
      variable = λ name at. if nat_lt 0 (length at) then s.indexed else s.plain;
      positionals = s.positionals;
      answer = λ key. s.answer;
    } };

    fn variable(
        &self,
        alloc: Global,
        _name: &Name,
        subscripts: &[i32],
    ) -> Result<Found, OutOfMemory> {
        if subscripts.len() > 0 {
            return copied(alloc, &self.indexed);
        }
        copied(alloc, &self.plain)
    }

    fn positionals(&self) -> u32 {
        self.positionals
    }

    fn answer(&self, _key: &Key) -> Option<&Answer> {
        self.answer.as_ref()
    }
}

/// The answer that is worded `defined`, `nothing` or `symbol F 4` (a type and a length).
fn answer_worded(words: &str) -> Option<Answer> {
    match words {
        "defined" => return Some(Answer::Defined),
        "nothing" => return Some(Answer::Nothing),
        _ => {}
    }
    let (letter, length) = words.strip_prefix("symbol ")?.split_once(' ')?;
    Some(Answer::Meaning(Attr {
        letter: *letter.as_bytes().first()?,
        length: length.parse::<u32>().ok()?,
    }))
}

/// What is worded `asks`, `fault 20`, `number -7`, `bit 1` or `parameter TEXT`.
fn found_worded(alloc: Global, words: &str) -> Result<Option<Found>, OutOfMemory> {
    if let Some(text) = words.strip_prefix("parameter ") {
        return Ok(Some(Found::Parameter(Text::of(alloc, text)?)));
    }
    match words.split_once(' ') {
        Some(("fault", code)) => Ok(code.parse::<u16>().ok().map(Found::Fault)),
        Some(("number", number)) => Ok(number.parse::<i32>().ok().map(number_found)),
        Some(("bit", bit)) => Ok(Some(Found::Value(SetValue::B(bit == "1")))),
        None if words == "asks" => Ok(Some(Found::Ask(Key::Parm))),
        _ => Ok(None),
    }
}

/// A SET symbol with this number.
fn number_found(number: i32) -> Found {
    Found::Value(SetValue::A(number))
}

impl Surroundings {
    /// No variable symbol stands for anything, and no key has an answer.
    pub fn nothing() -> Surroundings {
        Surroundings {
            plain: Found::Fault(20),
            indexed: Found::Fault(22),
            positionals: 0,
            answer: None,
        }
    }

    /// What is worded `4 TEXT`: so many operands of a macro call, each this text.
    fn listed(alloc: Global, words: &str) -> Result<Option<Surroundings>, OutOfMemory> {
        match words.split_once(' ') {
            Some((count, text)) => {
                let mut read = Surroundings::nothing();
                read.plain = Found::Fault(22);
                read.indexed = Found::Parameter(Text::of(alloc, text)?);
                read.positionals = count.parse::<u32>().unwrap_or(0);
                Ok(Some(read))
            }
            None => Ok(None),
        }
    }

    /// Every variable symbol stands for what is worded so.
    fn of_found(
        alloc: Global,
        words: &str,
        answer: Option<Answer>,
    ) -> Result<Option<Surroundings>, OutOfMemory> {
        match found_worded(alloc, words)? {
            Some(plain) => {
                let mut read = Surroundings::nothing();
                read.plain = plain;
                read.answer = answer;
                Ok(Some(read))
            }
            None => Ok(None),
        }
    }

    /// What is worded so: an answer and what variable symbols stand for, or one of the two.
    pub fn read(alloc: Global, words: &str) -> Result<Option<Surroundings>, OutOfMemory> {
        if let Some(list) = words.strip_prefix("list ") {
            return Surroundings::listed(alloc, list);
        }
        let (front, behind) = words.split_once(", ").unwrap_or((words, "fault 20"));
        match answer_worded(front) {
            Some(answer) => Surroundings::of_found(alloc, behind, Some(answer)),
            None => Surroundings::of_found(alloc, words, None),
        }
    }
}
