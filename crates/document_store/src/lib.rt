//! The open documents and the files of members beside them, positions in their texts and changes of them, as the editor
//! means them.
//!
//! A position has a line, counted from 0, and a place in the line, counted from 0 in UTF-16 units; a column counts from 1
//! in characters. Lines end by LF, CRLF and CR (Language Server Protocol 3.17, "Text Documents"). A character past the
//! line's end is that end, a line past the last is the end of the text, and a unit within a character is the start of that
//! character. Changes apply in turn, and where one is refused none is applied. A document is named by the path of
//! its URI.
//!
//! What was last read of a file is kept by its path. An open document of the path is present in its place, and the file is
//! present again once the document is closed.
//!
//! It knows nothing of messages, statements and folders, and reads no file. A text has at most 4 MiB in UTF-8.
#![tactic(auto)]

mod changes;
mod document;
mod fault;
mod kept;
mod laws;
mod limits;
mod lines;
mod members;
mod moving;
mod opening;
mod paths;
mod place;
mod seeking;
mod split_text;
mod store;

pub use changes::after_edits;
pub use document::{Document, MemberText};
pub use fault::StoreFault;
pub use laws::{columns_are_found_again, positions_are_found_again};
pub use limits::{MOST_DOCUMENTS, MOST_MEMBER_BYTES, MOST_MEMBERS};
pub use place::{column, position};
pub use store::{
    DocumentStore, documents_have_numbers, documents_own_their_texts, paths_have_files,
};
