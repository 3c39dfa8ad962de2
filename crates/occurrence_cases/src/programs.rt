//! Programs with the figures of their assemblies.
ghost use Rattle.std.specs.Prelude.{◌≡◌};
ghost use Rattle.text_pool.specs.Pool.{IsLive};

use document_store::{DocumentStore, MemberText, StoreFault};
use group_members::{GroupMembers, MemberIndex};
use hl_base::{Ledger, Name, OutOfMemory, PathId, Steps, Text, TextId};
use program_assembly::{Figures, assemble_figures};
use std::alloc::Global;
use std::marker::Brand;
use std::sync::ledger::Blank;
use text_pool::LONGEST_TEXT;

/// The folder of the member, and the path of its file, which is named TOTAL.
const LIBRARY: &str = "/w/lib";

const MEMBER: &str = "/w/lib/TOTAL";

/// The program.
const URI: &str = "file:///w/a.hlasm";

const PATH: &str = "/w/a.hlasm";

/// The figures of a program of a path and a text of the store.
fn assembled<L: Ledger>(
    alloc: Global,
    store: &DocumentStore,
    path: PathId,
    text: TextId,
    budget: u32,
    blank: Blank,
) -> Result<Figures, OutOfMemory>
    requires live { IsLive store.now.pool text.0 }
    requires name { blank.name ≡ L.name }
    requires parts { blank.parts ≡ L.parts }
    requires one { blank.parts ≡ 1 }
{
    let mut folders = Vec::new(alloc);
    folders.push(Text::of(alloc, LIBRARY)?)?;
    let index = MemberIndex::of(alloc, store)?;
    let members = GroupMembers::new(store, &index, folders.as_slice());
    let mut steps = Steps::<L>::open(blank);
    assemble_figures(alloc, path, text, "", &members, budget, &mut steps)
}

/// What the store refuses is no program.
fn refused(alloc: Global, fault: StoreFault) -> Result<String, OutOfMemory> {
    match fault {
        StoreFault::OutOfMemory => Err(OutOfMemory),
        _ => Ok(String::from_str(alloc, "refused")?),
    }
}

/// Figures with what the global symbol of a name holds, or a hyphen.
fn written(alloc: Global, figures: &Figures, name: &str) -> Result<String, OutOfMemory> {
    let summary = figures.summary;
    let counts = format!(in alloc;
        "{} points, {} symbols, {} notes",
        summary.points, summary.symbols, summary.diagnostics
    )?;
    let number = match Name::read(name) {
        Some(name) => figures.global(&name),
        None => None,
    };
    match number {
        Some(number) => Ok(format!(in alloc; "{}, {number}", counts.as_str())?),
        None => Ok(format!(in alloc; "{}, -", counts.as_str())?),
    }
}

/// The figures of the program that is open.
fn figures_of(
    alloc: Global,
    store: &DocumentStore,
    budget: u32,
    name: &str,
) -> Result<String, OutOfMemory> {
    let Some(path) = store.path_id(PATH) else {
        return Ok(String::from_str(alloc, "absent")?);
    };
    let Some(MemberText::File(text)) = store.present(path) else {
        return Ok(String::from_str(alloc, "absent")?);
    };
    let figures = assembled::<Brand>(alloc, store, path, text, budget, Blank::new(1))?;
    written(alloc, &figures, name)
}

/// Keeps the text of the member TOTAL, if there is one.
fn keep_member(store: &mut DocumentStore, alloc: Global, text: &str) -> Result<(), StoreFault> {
    if text.is_empty() || text.len() > LONGEST_TEXT {
        return Ok(());
    }
    store.set_member(alloc, MEMBER, Some(text))?;
    Ok(())
}

/// The figures of a program with this budget, and with a member TOTAL of this text, unless it is empty; what the global SETA symbol of
/// a name holds in the end stands behind them.
pub fn figures(
    alloc: Global,
    budget: &str,
    name: &str,
    text: &str,
    member: &str,
) -> Result<String, OutOfMemory> {
    let budget = budget.parse::<u32>().unwrap_or(0);
    let mut store = DocumentStore::new(alloc);
    match keep_member(&mut store, alloc, member) {
        Ok(()) => {}
        Err(fault) => return refused(alloc, fault),
    }
    match store.open_text(alloc, URI, "hlasm", 1, text) {
        Ok(()) => figures_of(alloc, &store, budget, name),
        Err(fault) => refused(alloc, fault),
    }
}
