//! Evaluations of `cond_expr`, which ask keys and are given answers, as the trees of questions that the machine of
//! `plain_expansion` follows, which ask trees of numbers and are given such.
//!
//! A key becomes its tree, and an answer is read from its tree (`specs/Answers`). Then following the one is following the
//! other (module `laws`): answers lead both as far, and both come to one result. So a language whose statements are
//! evaluated by `cond_expr` says so once, for all its statements.
//!
//! It knows nothing of what is evaluated, and of what a statement does. It has no code.
#![tactic(auto)]

mod laws;

pub use laws::{
    answers_are_read_back, evaluations_come_to_the_result, evaluations_lead_as_far,
    noted_answers_are_told, trees_come_to_the_result,
};
