//! Plain expansion: the statements that a call of a macro language processes over a world, in turn, as a definition
//! (`specs/Expansion`), and a machine that asks and puts, as a model (`specs/Engine`), whose plain runs give it.
//!
//! A language (`specs/Language`) says what its statements do, as trees of questions to the world (`specs/Questions`);
//! what is said here holds of every language and every world. The machine has no measure by itself; one that watches
//! itself (`specs/Guard`) keeps the laws of machines whatever the language asks and puts, and its runs are the same.
//!
//! It knows nothing of HLASM: not what a statement reads, what a key asks, and what a point carries. It has no code.
#![tactic(auto)]

mod example;
mod language;
mod laws;

pub use example::the_rows_come_out;
pub use language::MacroLanguage;
pub use laws::{
    branches_go_to_the_first, careful_runs_are_expansions, each_call_runs, each_unit_is_a_point,
    gas_is_free, more_answers_change_nothing, restarts_end, runs_are_expansions,
    the_watch_gives_up_nowhere_else, the_watch_keeps_the_laws,
};
