//! Compares tables of cases with what `json_view`, `lsp_messages`, `dap_messages`, `program_config` and `library_folders`
//! answer: `message_cases TABLE` reads the cases of one table from standard input, prints each whose answer differs, and at the
//! end `N passed, M failed`.
//!
//! tests/cases/README.md says what each table reads. What the crates promise is said by their own contracts; this program only
//! knows how an answer is written down.
#![tactic(auto)]

mod answers;
mod bodies;
mod config;
mod debug_bodies;
mod debug_requests;
mod folders;
mod json;
mod members;
mod messages;
mod reports;
mod tables;

use case_lines::compare_tables;
use std::process::ExitCode;
use tables::Table;

fn main(rt: HostRuntime) -> ExitCode {
    compare_tables::<Table>(&rt)
}
