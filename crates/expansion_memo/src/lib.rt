//! The memo: running a call, with outcomes of calls that ran taken in place of it and of its nested calls.
//!
//! A `Memo` keeps outcomes of one type of machine. `expand` runs a call: the world is then as its plain run leaves it, the
//! node has the points of that, and the end and the cost are the run's, whatever of it ran and whatever was taken. If an
//! outcome of an equal call holds, no step is made; and what ran is kept, unless fuel was wanting in it or an outermost
//! statement came. `retire` gives up exactly the outcomes whose nodes are no longer live.
//!
//! It knows nothing of HLASM, of what a key asks and of what an item says.
#![tactic(auto)]

mod entry;
mod find;
mod firsts;
mod memo;
mod number_index;
mod outcome;
mod running;
mod table;
mod walk;
mod within;

pub use memo::Memo;
pub use outcome::{Ended, Outcome};
