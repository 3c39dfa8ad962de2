//! Compares tables of cases with what `trace_arena`, `trace_cursor`, `trace_variables`, `macro_debugger`, `chain_arena` and
//! `set_symbols` answer: `trace_cases TABLE` reads the cases of one table from standard input, prints each whose answer differs,
//! and at the end `N passed, M failed`.
//!
//! tests/cases/README.md says what each table reads. What the crates promise is said by their own contracts; this program only
//! knows how nodes and links are made, how calls are worded and how an answer is written down.
#![tactic(auto)]

mod links;
mod nodes;
mod points;
mod stops;
mod symbols;
mod tables;
mod variables;

use case_lines::compare_tables;
use std::process::ExitCode;
use tables::Table;

fn main(rt: HostRuntime) -> ExitCode {
    compare_tables::<Table>(&rt)
}
