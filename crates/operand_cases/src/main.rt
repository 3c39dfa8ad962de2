//! Compares tables of cases with what the crates that judge USING and DROP and the operands of machine instructions answer:
//! `operand_cases TABLE` reads the cases of one table from standard input, prints each whose answer differs, and at the end
//! `N passed, M failed`.
//!
//! tests/cases/README.md says what each table reads. What the crates promise is said by their own contracts; this program only
//! knows how an answer is written down.
#![tactic(auto)]

mod checks;
mod readings;
mod rows;
mod settings;
mod symbols;
mod tables;
mod usings;

use case_lines::compare_tables;
use std::process::ExitCode;
use tables::Table;

fn main(rt: HostRuntime) -> ExitCode {
    compare_tables::<Table>(&rt)
}
