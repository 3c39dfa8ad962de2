//! What the store shows of what it holds.

use hl_base::{PathId, TextId};

/// An open document as the editor named it: the number of its path, its URI as it was opened, the id of its language and
/// its version (Language Server Protocol 3.17, "TextDocumentItem").
#[derive(Clone, Copy, Debug)]
pub struct Document<'a> {
    pub path: PathId,
    pub uri: &'a str,
    pub language: &'a str,
    pub version: i32,
}

/// What is present at a path: a text of the store's pool, or a file that cannot be read.
#[derive(Clone, Copy, Debug, PartialEq, Eq)]
pub enum MemberText {
    File(TextId),
    Unreadable,
}
