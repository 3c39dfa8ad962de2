//! Compares tables of cases with what `symbol_attributes` and the crates that lay out statements and check them answer:
//! `layout_cases TABLE` reads the cases of one table from standard input, prints each whose answer differs, and at the end
//! `N passed, M failed`.
//!
//! tests/cases/README.md says what each table reads. What the crates promise is said by their own contracts; this program only
//! knows how an answer is written down.
#![tactic(auto)]

mod constants;
mod definitions;
mod expressions;
mod labels;
mod layouts;
mod literals;
mod numbers;
mod rows;
mod statements;
mod symbols;
mod tables;

use case_lines::compare_tables;
use std::process::ExitCode;
use tables::Table;

fn main(rt: HostRuntime) -> ExitCode {
    compare_tables::<Table>(&rt)
}
