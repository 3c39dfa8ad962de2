//! What the values of a constant come to: how many there are, how many bytes they take, on which boundary they stand, and
//! which of them are wrong for their type or too long for their length.
//!
//! It knows nothing of symbols and places: the explicit length of a constant is a number here, and its values are texts. Its
//! contracts: the values of a constant as it is written (`Values::of`), and what is said of them (`count`, `bytes`, `is_wrong`,
//! `is_too_long`, `boundary`), are what the definitions say. It follows the HLASM Language Reference SC26-4940, "DC
//! instruction", "Nominal value", "Length modifier"; which values are wrong is this project's profile.
#![tactic(auto)]

mod class;
mod number;
mod right;
mod split;
mod values;

pub use values::{Values, boundary};
