//! Takes of a source.
use crate::streams::{Rising, kind_of};
use crate::words::{add_answer, cut, is_positive, number, numbers, part, sizes};
use hl_base::OutOfMemory;
use io_edge::{Failed, MemorySource, Source, StdSource, SureSource};
use std::alloc::{AllocError, Global};

/// The most room of a take.
const MOST_ROOM: usize = 16;

/// What a take of so much room gives.
fn taken<S: Source>(alloc: Global, source: &mut S, room: usize) -> Result<String, AllocError> {
    let room = room.min(MOST_ROOM);
    let mut buffer = [0u8; MOST_ROOM];
    match source.take(&mut buffer[..room]) {
        Ok(0) => String::from_str(alloc, "nothing"),
        Ok(count) => String::from_utf8_lossy(alloc, &buffer[..count]),
        Err(Failed) => String::from_str(alloc, "refused"),
    }
}

/// What `take ROOM` or `waiting` answers.
fn answer<S: Source>(alloc: Global, source: &mut S, call: &str) -> Result<String, AllocError> {
    match cut(call) {
        ("take", room) => taken(alloc, source, number(room)),
        ("waiting", "") => String::from_str(alloc, if source.waiting() { "yes" } else { "no" }),
        _ => String::from_str(alloc, "no call"),
    }
}

/// What the calls answer in turn.
fn asked<S: Source>(
    alloc: Global,
    source: &mut S,
    calls: &[String],
) -> Result<String, OutOfMemory> {
    let mut answers = String::new(alloc);
    for call in calls {
        let answer = answer(alloc, source, call.as_str())?;
        add_answer(&mut answers, answer.as_str())?;
    }
    Ok(answers)
}

/// `memory TEXT; SIZES; FAILING`: a source that holds its bytes.
fn of_memory(alloc: Global, words: &str, calls: &[String]) -> Result<String, OutOfMemory> {
    let (text, words) = part(words);
    let (pieces, failing) = part(words);
    let sizes = sizes(alloc, pieces)?;
    if !is_positive(&sizes) {
        return Ok(String::from_str(alloc, "a size is 0")?);
    }
    let bytes = Vec::from_slice(alloc, text.as_bytes())?;
    let mut source = MemorySource::new(bytes, sizes, Vec::new(alloc), numbers(alloc, failing)?);
    asked(alloc, &mut source, calls)
}

/// `sure TEXT; SIZES`: a source that holds its bytes and never fails.
fn of_sure(alloc: Global, words: &str, calls: &[String]) -> Result<String, OutOfMemory> {
    let (text, pieces) = part(words);
    let sizes = sizes(alloc, pieces)?;
    if !is_positive(&sizes) {
        return Ok(String::from_str(alloc, "a size is 0")?);
    }
    let bytes = Vec::from_slice(alloc, text.as_bytes())?;
    let mut source = SureSource::new(alloc, bytes, sizes, Vec::new(alloc));
    asked(alloc, &mut source, calls)
}

/// `reader TEXT`: a source over a reader that gives all it has at once.
fn of_reader(alloc: Global, text: &str, calls: &[String]) -> Result<String, OutOfMemory> {
    let mut source = StdSource::new(alloc, text.as_bytes())?;
    asked(alloc, &mut source, calls)
}

/// `rising FAILS KIND`: a source over a reader that gives `a`, `bb` and `ccc`, of whose reads one fails.
fn of_rising(alloc: Global, words: &str, calls: &[String]) -> Result<String, OutOfMemory> {
    let (fails, kind) = cut(words);
    let mut source = StdSource::new(alloc, Rising::new(number(fails), kind_of(kind)))?;
    asked(alloc, &mut source, calls)
}

/// What the calls of a source answer in turn, with semicolons between them.
pub fn answers(alloc: Global, source: &str, calls: &[String]) -> Result<String, OutOfMemory> {
    match cut(source) {
        ("memory", words) => of_memory(alloc, words, calls),
        ("sure", words) => of_sure(alloc, words, calls),
        ("reader", text) => of_reader(alloc, text, calls),
        ("rising", words) => of_rising(alloc, words, calls),
        _ => Ok(String::from_str(alloc, "no source")?),
    }
}
