//! Compares tables of cases with what assembled programs come to, their occurrences, what `symbol_answers` answers of these, and the
//! figures that `program_assembly` has: `occurrence_cases TABLE` reads the cases of one table from standard input, prints each whose
//! answer differs, and at the end `N passed, M failed`.
//!
//! tests/cases/README.md says what each table reads. What the crates promise is said by their own contracts; this program only
//! knows how texts are worded, how they are opened, and how an answer is written down.
#![tactic(auto)]

mod asking;
mod listing;
mod programs;
mod scene;
mod tables;
mod words;

use case_lines::compare_tables;
use std::process::ExitCode;
use tables::Table;

fn main(rt: HostRuntime) -> ExitCode {
    compare_tables::<Table>(&rt)
}
