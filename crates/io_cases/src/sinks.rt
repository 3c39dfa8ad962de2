//! Puts into a sink.
use crate::streams::{Narrow, kind_of};
use crate::words::{add_answer, cut, number, numbers};
use hl_base::OutOfMemory;
use io_edge::{Failed, MemorySink, Sink, StdSink, SureSink};
use std::alloc::{AllocError, Global};

/// What a put answers.
fn put<S: Sink>(alloc: Global, sink: &mut S, piece: &str) -> Result<String, AllocError> {
    match sink.put(piece.as_bytes()) {
        Ok(count) => format!(in alloc; "{count}"),
        Err(Failed) => String::from_str(alloc, "refused"),
    }
}

/// What the puts answer in turn.
fn put_each<S: Sink>(alloc: Global, sink: &mut S, pieces: &[String]) -> Result<String, AllocError> {
    let mut answers = String::new(alloc);
    for piece in pieces {
        let answer = put(alloc, sink, piece.as_str())?;
        add_answer(&mut answers, answer.as_str())?;
    }
    Ok(answers)
}

/// `memory ROOM MOST FAILING`: a sink that holds its bytes. What it holds comes last.
fn of_memory(alloc: Global, words: &str, pieces: &[String]) -> Result<String, OutOfMemory> {
    let (room, words) = cut(words);
    let (most, failing) = cut(words);
    let most = number(most).max(1);
    let mut sink = MemorySink::new(alloc, number(room), most, numbers(alloc, failing)?)?;
    let mut answers = put_each(alloc, &mut sink, pieces)?;
    let held = String::from_utf8_lossy(alloc, sink.contents())?;
    add_answer(&mut answers, held.as_str())?;
    Ok(answers)
}

/// `sure`: a sink that takes every byte. How many it took comes last.
fn of_sure(alloc: Global, pieces: &[String]) -> Result<String, OutOfMemory> {
    let mut sink = SureSink::new();
    let mut answers = put_each(alloc, &mut sink, pieces)?;
    let taken = format!(in alloc; "{} taken", sink.taken())?;
    add_answer(&mut answers, taken.as_str())?;
    Ok(answers)
}

/// `narrow MOST FAILS KIND`: a sink over a writer that takes so many bytes a time, of whose flushes one fails. How much was
/// flushed comes last.
fn of_narrow(alloc: Global, words: &str, pieces: &[String]) -> Result<String, OutOfMemory> {
    let (most, words) = cut(words);
    let (fails, kind) = cut(words);
    let mut writer = Narrow::new(number(most), number(fails), kind_of(kind));
    let mut answers = put_each(alloc, &mut StdSink::new(&mut writer), pieces)?;
    let flushed = format!(in alloc; "{} flushed", writer.flushed())?;
    add_answer(&mut answers, flushed.as_str())?;
    Ok(answers)
}

/// What the puts into a sink answer in turn, with semicolons between them.
pub fn answers(alloc: Global, sink: &str, pieces: &[String]) -> Result<String, OutOfMemory> {
    match cut(sink) {
        ("memory", words) => of_memory(alloc, words, pieces),
        ("sure", _) => of_sure(alloc, pieces),
        ("narrow", words) => of_narrow(alloc, words, pieces),
        _ => Ok(String::from_str(alloc, "no sink")?),
    }
}
