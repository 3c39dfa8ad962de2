//! The operand checks of generated statements, once these are laid out: of machine instructions, of the addresses in constants, of
//! USING and DROP.
//!
//! The statements are gone through once, in order, with the ranges in force after those before. What a check says stands after what
//! layout said of the statement, and no symbol is named twice there as not defined.
//!
//! It knows nothing of stacks, files and macros, and of what a check is. Its contract: what is said of each statement is a function
//! of the lines and their layout (`check_statements`); law: by the ranges after all statements before it. It follows the HLASM
//! Language Reference SC26-4940, "USING instruction", "DROP instruction".
#![tactic(auto)]

mod checks;
pub mod laws;
mod places;
mod program;
mod statement;

pub use program::check_statements;
pub use section_layout;
