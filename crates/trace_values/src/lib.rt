//! What one point of a trace carries (`TraceItem`), and what an assembly says of its points: symbols, sections, generated
//! statements, occurrences of names, variables and their settings.
//!
//! These are plain values: each holds what it says, `copy` gives an equal one, and a list is seen by contracts as the
//! list of its elements, to which `push` adds at the end. A point takes few bytes, since a trace has many of them: the
//! frames of a call differ only in the innermost place from one statement to the next, so its points share the rest.
//!
//! It knows nothing of where the values come from: neither of statements and macros nor of traces and assemblies. The
//! words are those of the HLASM Language Reference (SC26-4940).
#![tactic(auto)]

mod frames;
mod generated;
mod item;
mod occurrence;
mod section;
mod symbol_row;
mod variable;

pub use frames::OwnFrames;
pub use generated::{Generated, GeneratedList};
pub use item::{TraceItem, copy_notes};
pub use occurrence::{Entity, Occurrence, Occurrences, Role, Scope};
pub use section::{Reloc, Section, SectionId, Sections};
pub use symbol_row::{SymbolRow, SymbolRows};
pub use variable::{Setting, Settings, Variable, Variables};
