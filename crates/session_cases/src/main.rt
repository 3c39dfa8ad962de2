//! Compares tables of sessions with what `debug_sessions` and `hlasm_server` answer: `session_cases TABLE` reads the cases of one table
//! from standard input, prints each whose answer differs, and at the end `N passed, M failed`.
//!
//! tests/cases/README.md says what each table reads. What is promised of a debug session is said by the contracts of
//! `debug_sessions`, and what is promised of a run by that of `hlasm_server::run`; this program only knows how a script and the settings
//! of a run are read, how programs are assembled for a debugger, and how an answer is written down.
#![tactic(auto)]

mod assembling;
mod bodies;
mod clients;
mod frames;
mod messages;
mod numbers;
mod running;
mod runs;
mod scenes;
mod scripts;
mod statuses;
mod tables;
mod texts;
mod worded;

use case_lines::compare_tables;
use std::process::ExitCode;
use tables::Table;

fn main(rt: HostRuntime) -> ExitCode {
    compare_tables::<Table>(&rt)
}
