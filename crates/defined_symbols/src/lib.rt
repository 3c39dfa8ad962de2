//! The ordinary symbols that the statements of a program define, as these are generated: which of them a label defines first
//! of all.
//!
//! A label that is a symbol defines it on a machine instruction and on an ordinary operation of the assembler; EXTRN and WXTRN
//! define what they name. `DefinedSymbols` takes the statements one after the other; contracts see the list of the symbols,
//! each once, in the order in which they came.
//!
//! It knows nothing of values, of texts and of traces. It follows the HLASM Language Reference SC26-4940, "Symbols", "EXTRN
//! instruction", "WXTRN instruction".
#![tactic(auto)]

mod symbols;

pub use symbols::DefinedSymbols;
