//! What a macro's prototype says, and what the operands of a call mean to it.
//!
//! `read_prototype` reads a statement as a prototype: the operation by which the macro is called, and its parameters, or
//! `None` where it cannot be read as one. `bind` says what the name entry and the operands of a call mean to the parameters,
//! and `Binding::value` what a parameter or `&SYSLIST` with subscripts is worth. Each gives exactly what its definition says
//! (`specs/Prototypes`, `specs/Bindings`, `specs/Values`); only want of memory is free.
//!
//! It knows nothing of where a definition stands and of its other statements, of how operands get their values, and of what
//! a call does. It follows the HLASM Language Reference SC26-4940, "Macro prototype statement", "Macro call operands",
//! "Sublists in operands", "&SYSLIST system variable symbol".
#![tactic(auto)]

mod binding;
mod parameters;
mod prototype;
mod role;
mod text;
mod value;

pub use binding::{Binding, bind};
pub use parameters::{Parameter, Parameters};
pub use prototype::{Prototype, read_prototype};
pub use role::Role;
pub use value::{Bound, Worth};
