//! How what comes of a call is written.
use crate::running::{Ended, Ran};
use example_language::{Cells, Shown};
use expansion_step::Fault;
use hl_base::OutOfMemory;
use std::alloc::{AllocError, Global};

/// What went wrong, behind a point.
fn fault_word(fault: Fault) -> &'static str {
    match fault {
        Fault::NoFault => "",
        Fault::NoLabel => "?label",
        Fault::NoBranchLeft => "?branch",
        Fault::NoRoom => "?room",
    }
}

fn ended_word(ended: Ended) -> &'static str {
    match ended {
        Ended::Left => "left",
        Ended::All => "ended",
        Ended::Starved => "starved",
    }
}

/// A point: its line, the number of lists that copied one another, what is said, and what went wrong.
fn point(alloc: Global, shown: &Shown) -> Result<String, AllocError> {
    let line = shown.line;
    let deep = shown.deep;
    let said = shown.said;
    let fault = fault_word(shown.fault);
    format!(in alloc; "{line}.{deep}={said}{fault} ")
}

/// The places of one call's lists, the innermost first.
fn push_frames(alloc: Global, text: &mut String, frames: &[u32]) -> Result<(), AllocError> {
    for position in frames {
        let word = format!(in alloc; " {position}")?;
        text.push_str(word.as_str())?;
    }
    text.push(';')
}

/// What came of a call, and the world behind it.
pub fn written(
    alloc: Global,
    ran: &Ran<Shown, Vec<u32>>,
    world: &Cells,
) -> Result<String, OutOfMemory> {
    let mut text = String::new(alloc);
    for shown in ran.items.as_slice() {
        let point = point(alloc, shown)?;
        text.push_str(point.as_str())?;
    }
    let ended = ended_word(ran.ended);
    let cost = ran.cost;
    let nested = ran.nested;
    let end = format!(in alloc; "{ended}, cost {cost}, nested {nested}")?;
    text.push_str(end.as_str())?;
    let value = world.value;
    let calls = world.calls;
    let depth = world.depth;
    let at = world.at;
    let cells = format!(in alloc; ", value {value}, calls {calls}, depth {depth}, at {at}")?;
    text.push_str(cells.as_str())?;
    if ran.unpaid.len() > 0 {
        text.push_str(", unpaid")?;
    }
    for frames in ran.unpaid.as_slice() {
        push_frames(alloc, &mut text, frames.as_slice())?;
    }
    Ok(text)
}
