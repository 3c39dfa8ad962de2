//! Compares tables of cases with what `io_edge`, `library_reading`, `command_words` and `statement_names` answer: `io_cases TABLE`
//! reads the cases of one table from standard input, prints each whose answer differs, and at the end `N passed, M failed`.
//!
//! tests/cases/README.md says what each table reads. What the crates promise is said by their own contracts; this program only
//! knows how a source, a sink or a library is asked and how an answer is written down.
#![tactic(auto)]

mod commands;
mod holdings;
mod libraries;
mod names;
mod readings;
mod sinks;
mod sources;
mod streams;
mod tables;
mod words;

use case_lines::compare_tables;
use std::process::ExitCode;
use tables::Table;

fn main(rt: HostRuntime) -> ExitCode {
    compare_tables::<Table>(&rt)
}
