//! The variable symbols of a frame of a point, as a debugger shows them.
//!
//! Nothing is kept with a point but what its statement did. The local variables of a frame are what the statements of its
//! call did before the point, in order, beginning with the parameters and system variables. The global ones are those that
//! the call declared, with what all statements of the trace did to them before the point. So a call that is used again shows
//! the globals of where it is used. All of this is a function of the list of points (`variables_of`). What all statements of a
//! trace did is what it leaves of the global symbols (`globals_at_end`).
//!
//! It knows nothing of how a statement came to do what it did.
#![tactic(auto)]

mod call;
mod done;
mod globals;
mod key;
mod known;
mod laws;
mod shown;
mod spelling;
mod values;
mod variables;

pub use globals::globals_at_end;
pub use laws::frames_have_variables;
pub use variables::variables_at;
