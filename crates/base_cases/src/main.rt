//! Compares tables of cases with what `hl_base`, `note_rows`, `operand_list`, `expression_grammar`, `file_uri` and
//! `member_paths` answer: `base_cases TABLE` reads the cases of one table from standard input, prints each whose answer
//! differs, and at the end `N passed, M failed`.
//!
//! tests/cases/README.md says what each table reads. What the crates promise is said by their own contracts; this program only
//! knows how an answer is written down.
#![tactic(auto)]

mod characters;
mod copies;
mod notes;
mod operands;
mod paths;
mod tables;

use case_lines::compare_tables;
use std::process::ExitCode;
use tables::Table;

fn main(rt: HostRuntime) -> ExitCode {
    compare_tables::<Table>(&rt)
}
