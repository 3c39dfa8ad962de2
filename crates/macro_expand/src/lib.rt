//! The language of open code and macros, and the machine that expands them.
//!
//! `HlasmLanguage` gives the language (`specs/Language`) to `expansion_step`: what each statement does, as far as the answers
//! to its questions lead, what its call knows of variable symbols then, and what is kept of each point. `Expander` is the
//! asking machine of it. A statement does what `conditional_asm` says of it, as it was read; what it sets, declares and counts
//! is a deed of `call_knowledge`. MACRO gives an operation its definition (`asked_definitions`), and processing goes on after
//! it; an operation that is not built in calls the macro of its name, or of the member of that name, with what its operands
//! come to (`macro_operands`); the macro's system variables and parameters are known from its entry on (`macro_entry`); COPY
//! goes through a member within the call of its statement, and MEXIT and MEND end the call. Notes are the column faults of the
//! statement, those of its fields, those of what it does, and that of a branch that finds no sequence symbol or is one too many,
//! or of depth.
//!
//! It knows nothing of where answers live, of what is kept of earlier expansions and of what is made of the points. It follows
//! the HLASM Language Reference SC26-4940, "Conditional assembly language", "Macro language", "COPY instruction".
#![tactic(auto)]

mod acting;
mod calls;
mod columns;
mod copies;
mod definitions;
mod language;
mod laws;
mod passage;
mod performing;
mod said;

pub use columns::column_row;
pub use language::{Expander, HlasmLanguage};
pub use laws::effects_are_those_of_statements;
pub use passage::Passage;
pub use said::Said;
