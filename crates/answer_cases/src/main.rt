//! Compares tables of cases with what `symbol_answers`, `answers_feed` and `group_members` answer: `answer_cases TABLE` reads the
//! cases of one table from standard input, prints each whose answer differs, and at the end `N passed, M failed`.
//!
//! tests/cases/README.md says what each table reads. What the crates promise is said by their own contracts; this program only
//! knows how texts, symbols, occurrences and notes are worded, and how an answer is written down.
#![tactic(auto)]

mod asking;
mod feed;
mod members;
mod naming;
mod scene;
mod tables;
mod words;

use case_lines::compare_tables;
use std::process::ExitCode;
use tables::Table;

fn main(rt: HostRuntime) -> ExitCode {
    compare_tables::<Table>(&rt)
}
