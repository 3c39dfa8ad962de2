//! Compares tables of cases with what `operand_grammar`, `cond_expr`, `conditional_fields`, `conditional_asm`, `macro_operands`,
//! `macro_binding` and `macro_library` answer: `statement_cases TABLE` reads the cases of one table from standard input, prints each
//! whose answer differs, and at the end `N passed, M failed`.
//!
//! tests/cases/README.md says what each table reads. What the crates promise is said by their own contracts; this program only
//! knows how an answer is written down.
#![tactic(auto)]

mod bindings;
mod calls;
mod comparisons;
mod definition_tables;
mod definitions;
mod evaluations;
mod fields;
mod listings;
mod statements;
mod tables;
mod trees;
mod words;

use case_lines::compare_tables;
use std::process::ExitCode;
use tables::Table;

fn main(rt: HostRuntime) -> ExitCode {
    compare_tables::<Table>(&rt)
}
