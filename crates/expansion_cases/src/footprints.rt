//! What is noted of answers, and whether that holds in a world.
use asking_core::{Footprint, World};
use example_language::{Cells, Question, Value};
use hl_base::OutOfMemory;
use std::alloc::{AllocError, Global};

/// A key and an answer, worded `KEY=ANSWER`.
fn pair(word: &str) -> (Value, Value) {
    let (key, answer) = word.split_once('=').unwrap_or((word, ""));
    (
        Value {
            number: key.parse::<u32>().unwrap_or(0),
        },
        Value {
            number: answer.parse::<u32>().unwrap_or(0),
        },
    )
}

/// The pairs of a footprint, with semicolons behind them.
fn shown(alloc: Global, seen: &Footprint<Value, Value>) -> Result<String, AllocError> {
    let mut shown = String::new(alloc);
    for noted in seen.as_slice() {
        let (key, answer) = (noted.key.number, noted.value.number);
        shown.push_str(format!(in alloc; "{key}={answer};")?.as_str())?;
    }
    Ok(shown)
}

/// What is noted of answers that come one after another.
pub fn noted(alloc: Global, words: &str) -> Result<String, OutOfMemory> {
    let mut seen: Footprint<Value, Value> = Footprint::new(alloc);
    for word in words.split(' ') {
        let (key, answer) = pair(word);
        seen.note_answer(key, answer)?;
    }
    Ok(shown(alloc, &seen)?)
}

/// Asks the world a question, and notes what it answers.
fn note(
    alloc: Global,
    world: &mut Cells,
    seen: &mut Footprint<Question, Value>,
    question: Question,
) -> Result<(), OutOfMemory> {
    let value = world.ask(alloc, &question)?;
    seen.note_answer(question, value)
}

/// Changes the world by a word and a number, or asks it.
fn take(
    alloc: Global,
    world: &mut Cells,
    seen: &mut Footprint<Question, Value>,
    words: &str,
) -> Result<(), OutOfMemory> {
    let (word, number) = words.split_once(' ').unwrap_or((words, ""));
    let number = number.parse::<u32>().unwrap_or(0);
    match word {
        "value" => note(alloc, world, seen, Question::Value)?,
        "calls" => note(alloc, world, seen, Question::Calls)?,
        "sets" => world.put(alloc, Question::Value, Value { number })?,
        "counts" => world.bump(number),
        "enters" => world.enter(),
        "leaves" => world.leave(),
        _ => world.at(number),
    }
    Ok(())
}

/// Whether what was noted of a world holds in it behind each of its changes and questions.
pub fn held(alloc: Global, script: &str) -> Result<String, OutOfMemory> {
    let mut world = Cells::new();
    let mut seen = Footprint::new(alloc);
    let mut said = String::new(alloc);
    for words in script.split(", ") {
        take(alloc, &mut world, &mut seen, words)?;
        let holds = seen.holds_in(alloc, &mut world)?;
        said.push_str(if holds { "yes;" } else { "no;" })?;
    }
    Ok(said)
}
