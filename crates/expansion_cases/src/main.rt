//! Runs the machine of `expansion_step` on calls of the small language of `example_language`, over its world in memory, and
//! compares what comes of it; the same of what `Footprint` of `asking_core` notes of that world. `expansion_cases TABLE` reads
//! the cases of one table from standard input, prints each whose answer differs, and at the end `N passed, M failed`.
//!
//! tests/cases/README.md says what each table reads. What the crates promise is said by their own contracts; this program only
//! knows how actions are carried out, and how what comes of it is written down.
#![tactic(auto)]

mod footprints;
mod reading;
mod running;
mod tables;
mod writing;

use case_lines::compare_tables;
use std::process::ExitCode;
use tables::Table;

fn main(rt: HostRuntime) -> ExitCode {
    compare_tables::<Table>(&rt)
}
