//! Requests that wait.
ghost use Rattle.std.specs.Prelude.{◌≡◌};
ghost use Rattle.waiting_requests.specs.Requests.{is_same_id};

use hl_base::{Position, Text};
use lsp_messages::Id;

/// What is asked of a document: where the symbol at a place is defined, where it is named, what is said of it, or which symbols
/// the document defines.
#[derive(Clone, Copy, Debug, PartialEq, Eq)]
pub enum Question {
    Definition { at: Position },
    References { at: Position, declarations: bool },
    Hover { at: Position },
    Symbols,
}

/// A request: its id, the URI of the document as it came, and what is asked.
#[derive(Debug, Drop)]
pub struct Request {
    pub id: Id,
    pub uri: Text,
    pub question: Question,
}

/// Whether two ids are one.
pub(crate) fn is_same_id(one: &Id, other: &Id) -> bool
    ensures { result ≡ is_same_id one.now other.now }
{
    match (one, other) {
        (Id::Number(one), Id::Number(other)) => one == other,
        (Id::Words(one), Id::Words(other)) => one.as_str() == other.as_str(),
        _ => false,
    }
}
