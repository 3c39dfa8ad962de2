//! What the store keeps of an open document.
ghost use Rattle.std.specs.Prelude.{◌≡◌, ◌<◌, [], ◌∷◌, ◌++◌, position};
ghost use Rattle.std.specs.Vec.{vec_len, vec_capacity};
ghost use Rattle.std.specs.Str.{chars, bytes_eq};
ghost use Rattle.document_store.specs.Inside.{is_kept_at};

use crate::Document;
use hl_base::{PathId, Text, TextId};

/// An open document: its path with its number, what the editor said of it, and the number of its text.
#[derive(Drop)]
pub(crate) struct KeptDocument {
    pub(crate) path: Text,
    pub(crate) number: PathId,
    pub(crate) uri: Text,
    pub(crate) language: Text,
    pub(crate) version: i32,
    pub(crate) text: TextId,
}

impl KeptDocument {
    /// The document as it is shown.
    pub(crate) fn shown(&self) -> Document<'_>
        ensures path { result.path ≡ self.now.number }
        ensures uri { chars result.uri.now ≡ self.now.uri }
        ensures language { chars result.language.now ≡ self.now.language }
        ensures version { result.version ≡ self.now.version }
    {
        Document {
            path: self.number,
            uri: self.uri.as_str(),
            language: self.language.as_str(),
            version: self.version,
        }
    }

    /// Gives the document another version and text.
    pub(crate) fn rewrite(&mut self, version: i32, text: TextId)
        ensures { self.new ≡ record self.old { version = version; text = text } }
    {
        self.version = version;
        self.text = text;
    }
}

/// Whether a text is this one.
pub(crate) fn is_same(text: &Text, other: &str) -> bool
    ensures before { result ≡ bytes_eq text.now (chars other.now) }
    ensures behind { result ≡ bytes_eq (chars other.now) text.now }
{
    text.as_str() == other
}

/// The place of the document of a path.
pub(crate) fn place_in(documents: &[KeptDocument], path: &str) -> Option<usize>
    ensures { result ≡ position (is_kept_at (chars path.now)) documents.now }
{
    documents.iter().position(|kept| is_same(&kept.path, path))
}

/// Puts a document behind the others.
pub(crate) fn append(documents: &mut Vec<KeptDocument>, kept: KeptDocument)
    requires { vec_len documents.old < vec_capacity documents.old }
    ensures { documents.new.items ≡ documents.old.items ++ kept ∷ [] }
{
    documents.push_reserved(kept);
}
