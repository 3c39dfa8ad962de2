//! Breakpoints by the numbers of paths.
ghost use Rattle.std.specs.Prelude.{◌≡◌, IfOk, OnOk};
ghost use Rattle.debug_sessions.specs.Inside.{from_zero, lines_set, AreNumbered};

use crate::breakpoints::PathLines;
use document_store::{DocumentStore, paths_have_files};
use hl_base::OutOfMemory;
use macro_debugger::Debug;
use std::alloc::Global;

/// Lines counted from 0 that count from 1 here.
fn from_zero(alloc: Global, lines: &[u32]) -> Result<Vec<u32>, OutOfMemory>
    ensures { IfOk result (λ counted. counted.items ≡ from_zero lines.now) }
{
    Ok(
        lines
            .iter()
            .filter(|line| **line > 0)
            .map(|line| line.saturating_sub(1))
            .collect(alloc)?,
    )
}

/// Sets the breakpoints of one path, if it has a number.
fn set_lines(
    alloc: Global,
    store: &DocumentStore,
    debug: &mut Debug,
    setting: &PathLines,
) -> Result<(), OutOfMemory>
    ensures rest { debug.new ≡ record debug.old { breakpoints = debug.new.breakpoints } }
    ensures set { OnOk result (debug.new.breakpoints
        ≡ lines_set store.now.store.paths setting.now debug.old.breakpoints) }
{
    let Some(path) = store.path_id(setting.path.as_str()) else {
        return Ok(());
    };
    let lines = from_zero(alloc, setting.lines.as_slice())?;
    debug.set_breakpoints(alloc, path, lines.as_slice())
}

/// Sets all breakpoints, those of each path under its number, in place of any that were set.
pub(crate) fn set_breakpoints(
    alloc: Global,
    store: &DocumentStore,
    debug: &mut Debug,
    breakpoints: &[PathLines],
) -> Result<(), OutOfMemory>
    ensures rest { debug.new ≡ record debug.old { breakpoints = debug.new.breakpoints } }
    ensures set { OnOk result (AreNumbered store.now.store.paths breakpoints.now debug.new.breakpoints) }
{
    paths_have_files(store);
    debug.clear_breakpoints();
    let mut left = breakpoints.len();
    while left > 0 {
        left -= 1;
        set_lines(alloc, store, debug, &breakpoints[left])?;
    }
    Ok(())
}
