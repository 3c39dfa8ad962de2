//! JSON values as the readers of messages see them: members by name and kind.
//!
//! `parse` reads bytes, and `compact` writes a value; `need_text` and its kin answer the member under a name, as a
//! text, a whole number, an object or a list, or say that it is missing or of another kind. `opt_text` and its kin
//! answer `None` where the member is missing. The crate knows no message: which members a message has, and what a
//! fault means to the client, is the business of the crates above.
//!
//! The standard is JSON (RFC 8259), as `serde_json` reads it: of two members of one name the last stays, and lists and
//! objects nest at most 127 levels deep. Whole numbers are those written without a point and an exponent that fit 64
//! bits, other than `-0`.
#![tactic(auto)]

mod members;
mod texts;

pub use members::{
    MemberFault, need_int, need_list, need_object, need_text, need_uint, opt_bool, opt_list,
    opt_object, opt_text, opt_uint,
};
pub use texts::{ParseFault, compact, parse};
