//! The texts that are present, as an editor is shown places in them: under which URI the client knows a text, and where
//! columns of its lines begin and end in UTF-16 units.
//!
//! A `TextSite` is a text of the pool and its URI. The pool keeps where its lines begin, so a place in any of them is told
//! without going through the text. `site_of` gives the site of a path, where a text is present, and `site_at` the empty one where none is.
//!
//! It knows nothing of statements, notes and names: a place is a line and columns. Its contract: places and URIs are what the
//! definitions say of the store (Language Server Protocol 3.17, "Position"; that a line is shown up to column 71 is this
//! project's rule).
#![tactic(auto)]

mod paths;
mod site;

pub use paths::{path_text, site_at, site_of, uri_at};
pub use site::TextSite;
