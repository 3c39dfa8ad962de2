//! What a statement tells of symbols once it is generated: which symbols it defines or names as external, and what each of
//! them means to attribute references from then on.
//!
//! It knows nothing of how statements are read and where meanings are kept. Its contracts: the meanings that a generated
//! statement gives (`meanings`), and what the label of a macro call means until a statement defines it (`of_call`). It
//! follows the HLASM Language Reference SC26-4940, "Symbols", "Attribute references".
#![tactic(auto)]

mod symbols;

pub use symbols::{SymbolMeaning, meanings, of_call};
