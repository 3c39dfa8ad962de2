//! The plain values that every layer of the language server speaks of: texts, names, places, notes, and the
//! ledger of steps.
//!
//! It knows nothing of messages, files, statements or macros, and does no work of its own. A `Text` is the list of
//! its characters (Unicode scalar values), whichever way it lies in memory; a `Name` is the upper-cased bytes of an
//! ordinary symbol (HLASM Language Reference SC26-4940, "Symbols"). Contracts see the lists of notes and frames as
//! lists. What allocates takes the allocator first and answers `OutOfMemory` where there is no memory.
#![tactic(auto)]

mod edit;
mod line;
mod memory;
mod name;
mod note;
mod order;
mod place;
mod quoting;
mod set;
mod steps;
mod symbol;
mod text;

pub use edit::{Edit, Edits, Position};
pub use line::{TextLines, end_of_line, is_crlf, lines, lines_are_between_ends, units};
pub use memory::OutOfMemory;
pub use name::Name;
pub use note::{Note, Notes, Severity};
pub use order::{compare, ebcdic, texts_are_ordered};
pub use place::{Frame, FrameKind, Frames, Origin, PathId, TextId};
pub use quoting::{Nesting, names_attribute};
pub use set::{Answer, Attr, Declaration, Declarations, Key, Line, SetKind, SetValue};
pub use std::sync::ledger::Ledger;
pub use steps::Steps;
pub use symbol::{is_letter, is_symbol_character};
pub use text::Text;
