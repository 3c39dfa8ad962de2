//! What a document needs before it is taken in.
ghost use Rattle.std.specs.Prelude.{◌≡◌, ◌≤◌, ◌^◌, length, IfOk, IfErr};
ghost use Rattle.std.specs.Str.{chars};
ghost use Rattle.document_store.specs.Inside.{IsPrepared, paths_in};

use crate::StoreFault;
use crate::kept::KeptDocument;
use crate::paths::number_for;
use hl_base::{PathId, Text, TextId};
use indexmap::IndexSet;
use std::alloc::Global;

/// A document without its text: its path, once to be numbered and once to be kept, and what the editor said of it.
#[derive(Drop)]
pub(crate) struct Opening {
    key: String,
    path: Text,
    number: PathId,
    uri: Text,
    language: Text,
    version: i32,
}

impl Opening {
    /// The path to be numbered, and the document with its text.
    pub(crate) fn keep(self, text: TextId) -> (String, KeptDocument)
        ensures key { result.0 ≡ self.key }
        ensures kept { result.1 ≡ record { path = self.path; number = self.number; uri = self.uri; language = self.language; version = self.version; text = text } }
    {
        let kept = KeptDocument {
            path: self.path,
            number: self.number,
            uri: self.uri,
            language: self.language,
            version: self.version,
            text,
        };
        (self.key, kept)
    }
}

/// Makes all that a document needs but its text.
pub(crate) fn prepare(
    alloc: Global,
    paths: &IndexSet<String>,
    path: &str,
    uri: &str,
    language: &str,
    version: i32,
) -> Result<Opening, StoreFault>
    requires { length paths.now.keys ≤ 2 ^ 32 }
    ensures prepared { IfOk result (λ opening. IsPrepared (paths_in paths.now.keys) (chars path.now) (chars uri.now) (chars language.now) version opening) }
    ensures memory { IfErr result (λ fault. fault ≡ StoreFault.OutOfMemory) }
{
    let number = number_for(paths, path)?;
    Ok(Opening {
        key: String::from_str(alloc, path)?,
        path: Text::of(alloc, path)?,
        number,
        uri: Text::of(alloc, uri)?,
        language: Text::of(alloc, language)?,
        version,
    })
}
