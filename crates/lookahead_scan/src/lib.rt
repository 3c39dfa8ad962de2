//! Which label a look ahead finds: what T' and L' of a symbol mean that no statement has defined yet.
//!
//! It knows nothing of values, of macro calls and of what was defined so far. Its one contract: an index that is built once
//! (`LookIndex::build`) answers for each name and each statement what the definition *lookahead* finds after that statement
//! (`LookIndex::find`): statements are read as they are written, definitions are passed over, the members that COPY names
//! stand in its place, and nothing after END is found. It follows the HLASM Language Reference SC26-4940, "Lookahead".
#![tactic(auto)]

mod copying;
mod index;
mod sight;
mod statements;

pub use index::LookIndex;
pub use sight::Label;
