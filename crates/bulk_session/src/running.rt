//! Leading the session through its messages.
ghost use Rattle.std.specs.Prelude.{◌≡◌, ◌≢◌, ◌<◌, ◌≤◌, ◌+◌, [], Some, true, is_some, IfOk, OnOk};
ghost use Rattle.session_core.specs.State.{start};
ghost use Rattle.session_core.specs.Turn.{turn};
ghost use Rattle.bulk_session.specs.Bulk as rules;
ghost use Rattle.bulk_session.specs.Inside as inside;

use crate::shelf::BulkLibrary;
use bulk_script::{
    EDITS, Outcome, PROGRAM, changed, edited_place, initialize, initialized, lines_of, opened,
    program_text,
};
use hl_base::{Ledger, Name, OutOfMemory, Steps};
use session_core::{Figures, Session};
use std::alloc::Global;

/// How many statements the program may be given.
const BUDGET: u32 = 100_000;

/// The name of the total that the members make.
const TOTAL: &str = "TOT";

/// The session is told a message. What it writes is not looked at.
fn tell<L: Ledger>(
    alloc: Global,
    session: &mut Session,
    library: &mut BulkLibrary,
    body: &[u8],
    steps: &mut Steps<L>,
) -> Result<(), OutOfMemory>
    ensures { OnOk result (inside.IsHeard session.old.state body.now session.new.state) }
{
    match session.message(alloc, body, library, steps) {
        Ok(_) => Ok(()),
        Err(_) => Err(OutOfMemory),
    }
}

/// The session makes its Turn, behind which the program's list is made.
fn make_turn<L: Ledger>(
    alloc: Global,
    session: &mut Session,
    steps: &mut Steps<L>,
) -> Result<(), OutOfMemory>
    requires work { session.old.state.queue ≢ [] }
    ensures { OnOk result (session.new.state ≡ (turn session.old.state).state) }
{
    match session.turn(alloc, steps) {
        Ok(()) => Ok(()),
        Err(_) => Err(OutOfMemory),
    }
}

/// The client begins in its folder.
fn begin<L: Ledger>(
    alloc: Global,
    session: &mut Session,
    library: &mut BulkLibrary,
    steps: &mut Steps<L>,
) -> Result<(), OutOfMemory>
    requires fresh { session.old.state ≡ start rules.budget }
    ensures { OnOk result (session.new.state ≡ inside.begun) }
{
    let body = initialize(alloc)?;
    tell(alloc, session, library, &body, steps)
}

/// The client is ready: the session reads the configuration and the members.
fn make_ready<L: Ledger>(
    alloc: Global,
    session: &mut Session,
    library: &mut BulkLibrary,
    steps: &mut Steps<L>,
) -> Result<(), OutOfMemory>
    requires begun { session.old.state ≡ inside.begun }
    ensures { OnOk result (session.new.state ≡ inside.ready) }
{
    let body = initialized(alloc)?;
    tell(alloc, session, library, &body, steps)
}

/// The program is opened.
fn open<L: Ledger>(
    alloc: Global,
    count: u32,
    session: &mut Session,
    library: &mut BulkLibrary,
    steps: &mut Steps<L>,
) -> Result<(), OutOfMemory>
    requires few { count ≤ 10000 }
    requires ready { session.old.state ≡ inside.ready }
    ensures { OnOk result (inside.IsQueued session.new.state count 0) }
{
    let text = program_text(alloc, count)?;
    let body = opened(alloc, text.as_str())?;
    tell(alloc, session, library, &body, steps)
}

/// The list of the program is made behind so many edits.
fn make_list<L: Ledger>(
    alloc: Global,
    count: u32,
    edits: u32,
    session: &mut Session,
    steps: &mut Steps<L>,
) -> Result<(), OutOfMemory>
    requires queued { inside.IsQueued session.old.state count edits }
    ensures { OnOk result (inside.IsListed session.new.state count edits) }
{
    make_turn(alloc, session, steps)
}

/// The session begins, and the program is opened and assembled.
fn open_and_list<L: Ledger>(
    alloc: Global,
    count: u32,
    session: &mut Session,
    library: &mut BulkLibrary,
    steps: &mut Steps<L>,
) -> Result<(), OutOfMemory>
    requires few { count ≤ 10000 }
    requires fresh { session.old.state ≡ start rules.budget }
    ensures { OnOk result (inside.IsListed session.new.state count 0) }
{
    begin(alloc, session, library, steps)?;
    make_ready(alloc, session, library, steps)?;
    open(alloc, count, session, library, steps)?;
    make_list(alloc, count, 0, session, steps)
}

/// The operand of a call becomes 5.
fn change<L: Ledger>(
    alloc: Global,
    count: u32,
    edit: u32,
    session: &mut Session,
    library: &mut BulkLibrary,
    steps: &mut Steps<L>,
) -> Result<(), OutOfMemory>
    requires some { 0 < count }
    requires few { count ≤ 10000 }
    requires within { edit < 10 }
    requires listed { inside.IsListed session.old.state count edit }
    ensures { OnOk result (inside.IsQueued session.new.state count (edit + 1)) }
{
    let place = edited_place(alloc, count, edit)?;
    let body = changed(alloc, edit + 2, place, "5")?;
    tell(alloc, session, library, &body, steps)
}

/// An edit is made, and the program is assembled once more.
fn make_edit<L: Ledger>(
    alloc: Global,
    count: u32,
    edit: u32,
    session: &mut Session,
    library: &mut BulkLibrary,
    steps: &mut Steps<L>,
) -> Result<(), OutOfMemory>
    requires some { 0 < count }
    requires few { count ≤ 10000 }
    requires within { edit < 10 }
    requires listed { inside.IsListed session.old.state count edit }
    ensures { OnOk result (inside.IsListed session.new.state count (edit + 1)) }
{
    change(alloc, count, edit, session, library, steps)?;
    make_list(alloc, count, edit + 1, session, steps)
}

/// The edits are made, one after the other.
fn make_edits<L: Ledger>(
    alloc: Global,
    count: u32,
    session: &mut Session,
    library: &mut BulkLibrary,
    steps: &mut Steps<L>,
) -> Result<(), OutOfMemory>
    requires some { 0 < count }
    requires few { count ≤ 10000 }
    requires listed { inside.IsListed session.old.state count 0 }
    ensures { OnOk result (inside.IsListed session.new.state count 10) }
{
    for edit in 0..EDITS {
        make_edit(alloc, count, edit, session, library, steps)?;
    }
    Ok(())
}

/// What the program's assembly behind so many edits comes to in figures.
fn figures<L: Ledger>(
    alloc: Global,
    count: u32,
    edits: u32,
    session: &mut Session,
    steps: &mut Steps<L>,
) -> Result<Figures, OutOfMemory>
    requires listed { inside.IsListed session.old.state count edits }
    ensures figures { IfOk result (λ figures. figures ≡ rules.figures_behind count edits) }
    ensures same { session.new ≡ session.old }
{
    match session.figures(alloc, PROGRAM, steps)? {
        Some(figures) => Ok(figures),
        None => unreachable!(),
    }
}

/// The total that the members made in an assembly with these figures; 0 where none declares it.
fn total_in(figures: &Figures) -> i32
    ensures { result ≡ rules.total_in figures.now }
{
    let Some(name) = Name::read(TOTAL) else {
        unreachable!()
    };
    figures.global(&name).unwrap_or(0)
}

/// What the assemblies of a program of so many calls come to, in a session that has not begun.
fn outcome_in<L: Ledger>(
    alloc: Global,
    count: u32,
    session: &mut Session,
    library: &mut BulkLibrary,
    steps: &mut Steps<L>,
) -> Result<Outcome, OutOfMemory>
    requires some { 0 < count }
    requires few { count ≤ 10000 }
    requires fresh { session.old.state ≡ start rules.budget }
    ensures { IfOk result (λ outcome. outcome ≡ rules.outcome_of (rules.figures_behind count 0) (rules.figures_behind count 10)) }
{
    open_and_list(alloc, count, session, library, steps)?;
    let before = figures(alloc, count, 0, session, steps)?;
    make_edits(alloc, count, session, library, steps)?;
    let behind = figures(alloc, count, 10, session, steps)?;
    Ok(Outcome {
        points: before.summary.points,
        symbols: before.summary.symbols,
        diagnostics: before.summary.diagnostics,
        total: total_in(&before),
        total_behind: total_in(&behind),
    })
}

/// The same in a session of its own.
fn outcome<L: Ledger>(
    alloc: Global,
    count: u32,
    steps: &mut Steps<L>,
) -> Result<Outcome, OutOfMemory>
    requires some { 0 < count }
    requires few { count ≤ 10000 }
    ensures { IfOk result (λ outcome. outcome ≡ rules.outcome_of (rules.figures_behind count 0) (rules.figures_behind count 10)) }
{
    let mut library = BulkLibrary::new(alloc)?;
    let mut session = Session::new(alloc, BUDGET)?;
    outcome_in(alloc, count, &mut session, &mut library, steps)
}

/// The six lines of a session of its own, whose program has so many calls. There is no other `Err` than want of memory.
#[tactic(auto, unfolding(crate::specs::Bulk::bulk_lines))]
pub fn bulk_lines<L: Ledger>(
    alloc: Global,
    count: u32,
    steps: &mut Steps<L>,
) -> Result<Vec<u8>, OutOfMemory>
    requires some { 0 < count }
    requires few { count ≤ 10000 }
    ensures lines { IfOk result (λ lines. lines.items ≡ rules.bulk_lines count) }
{
    let outcome = outcome(alloc, count, steps)?;
    Ok(lines_of(alloc, outcome)?.into_bytes())
}
