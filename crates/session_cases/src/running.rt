//! A run with a ledger of its own.
ghost use Rattle.std.specs.Prelude.{◌≡◌};

use hl_base::{Ledger, Steps};
use hlasm_server::{Status, run};
use io_edge::{Library, Sink, Source};
use std::alloc::{AllocError, Global};
use std::marker::Brand;
use std::sync::ledger::Blank;

/// Runs in a ledger that nothing else uses.
fn run_counted<S: Source, K: Sink, B: Library, L: Ledger>(
    alloc: Global,
    words: &[String],
    source: &mut S,
    sink: &mut K,
    library: &mut B,
    blank: Blank,
) -> Status
    requires name { blank.name ≡ L.name }
    requires parts { blank.parts ≡ L.parts }
    requires one { blank.parts ≡ 1 }
{
    let mut steps = Steps::<L>::open(blank);
    run(alloc, words, source, sink, library, &mut steps)
}

/// How a run ends of these words, over this source, sink and library.
pub fn run_over<S: Source, K: Sink, B: Library>(
    alloc: Global,
    words: &[String],
    source: &mut S,
    sink: &mut K,
    library: &mut B,
) -> Status {
    run_counted::<S, K, B, Brand>(alloc, words, source, sink, library, Blank::new(1))
}

/// The words of a text, with a blank between them.
pub fn words(alloc: Global, text: &str) -> Result<Vec<String>, AllocError> {
    let mut words = Vec::new(alloc);
    for word in text.split(' ') {
        words.push(String::from_str(alloc, word)?)?;
    }
    Ok(words)
}
