//! Lists of statements, each read once: what open code, a macro definition or a copied member processes, and where a branch
//! goes within it.
//!
//! A `Listing` is seen as the list of its statements with their places. Its `elements` are those that are processed; the
//! place of a label is that of the first one that a branch finds, and is looked up in an index that is made once. A list
//! is shared, and so is each of its lines, from which other lists are made.
//!
//! It knows nothing of what a statement does, of values and of files. It follows the HLASM Language Reference SC26-4940,
//! "Sequence symbols", "Macro definition header", "Macro definition trailer".
#![tactic(auto)]

mod definition;
mod index;
mod line;
mod listing;
mod numbering;
mod source;

pub use definition::{begins_definition, begun_behind, ends_definition};
pub use line::Line;
pub use listing::{Element, Listing};
pub use source::lines_of;
pub use statement_reading;
pub use statement_reading::conditional_fields;
