//! Runs over memory: how each ends, and what was written, read and asked by then.
use crate::frames::{named, push_part};
use crate::running::{run_over, words};
use crate::scenes::{library, sink, source, wrong_setting};
use hl_base::OutOfMemory;
use hlasm_server::Status;
use io_edge::{MemoryLibrary, MemorySink, MemorySource};
use std::alloc::{AllocError, Global};

/// Adds how a run ended, and how many bytes it left.
fn push_end(
    alloc: Global,
    said: &mut String,
    status: Status,
    left: usize,
) -> Result<(), AllocError> {
    push_part(said, format!(in alloc; "{status}")?.as_str())?;
    if left == 0 {
        return Ok(());
    }
    push_part(said, format!(in alloc; "left {left}")?.as_str())
}

/// Adds how many calls were made of a library, and how many it refused.
fn push_calls(alloc: Global, said: &mut String, library: &MemoryLibrary) -> Result<(), AllocError> {
    let (calls, refused) = (library.noted().len(), library.refusals());
    if calls == 0 {
        return Ok(());
    }
    push_part(said, format!(in alloc; "{calls} calls")?.as_str())?;
    if refused == 0 {
        return Ok(());
    }
    push_part(said, format!(in alloc; "{refused} refused")?.as_str())
}

/// What a run over a source, a sink and a library comes to.
fn outcome(
    alloc: Global,
    words: &[String],
    source: &mut MemorySource,
    sink: &mut MemorySink,
    library: &mut MemoryLibrary,
) -> Result<String, OutOfMemory> {
    let status = run_over(alloc, words, source, sink, library);
    let mut said = named(alloc, sink.contents())?;
    push_end(alloc, &mut said, status, source.rest().len())?;
    push_calls(alloc, &mut said, library)?;
    Ok(said)
}

/// The same over the source and the sink of some settings.
fn outcome_over(
    alloc: Global,
    words: &[String],
    settings: &[String],
    library: &mut MemoryLibrary,
) -> Result<String, OutOfMemory> {
    let mut source = source(alloc, settings)?;
    let mut sink = sink(alloc, settings)?;
    outcome(alloc, words, &mut source, &mut sink, library)
}

/// The same over the library of the settings, too.
fn outcome_under(alloc: Global, text: &str, settings: &[String]) -> Result<String, OutOfMemory> {
    let words = words(alloc, text)?;
    let mut library = library(alloc, settings)?;
    outcome_over(alloc, &words, settings, &mut library)
}

/// What the run of some words under some settings comes to: the bodies that were written, how it ended, how many bytes of the
/// input are left, if any are, and how many calls were made of the library and refused.
pub fn told(alloc: Global, text: &str, settings: &[String]) -> Result<String, OutOfMemory> {
    match wrong_setting(settings) {
        Some(name) => Ok(format!(in alloc; "no setting {name}")?),
        None => outcome_under(alloc, text, settings),
    }
}
