//! Pools of literals: which literals a pool has, and where each of them stands in it.
//!
//! Equal texts of one pool are one literal, whose length is that of its first use. A pool that begins on a doubleword has each
//! literal on the boundary that its length asks for: multiples of 8 come first, then those of 4, then those of 2, then the
//! others, each in order of first use.
//!
//! It knows nothing of statements, constants, sections and symbols: a literal is a text and a number of bytes. It follows the
//! HLASM Language Reference SC26-4940, "Literals", "Literal pool".
#![tactic(auto)]

mod offsets;
mod pool;

pub use pool::Pool;
