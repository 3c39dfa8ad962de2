//! `Chains`: links that stand in two lists each, the list of a left number and the list of a right number.
//!
//! Contracts see the live links by their numbers and the lists of both sides: `add` puts a link last in the list of its
//! left and of its right number, `unlink` takes it out of both, `unlink_right` takes out all links of a right number, and
//! no other list changes. The list of a number has its live links and nothing else (`links_are_listed`). Each call but
//! `add` takes no memory, and takes the same time however many links there are (`unlink_right`: for each link that it
//! takes out).
//!
//! It knows nothing of what is linked: numbers are numbers, and a link carries what its maker gives it.
#![tactic(auto)]

mod chains;
mod index;
mod link;

pub use chains::{Chains, links_are_listed};
pub use link::{Link, LinkId};
