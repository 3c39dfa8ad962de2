//! The path that the URI of a file names, and the URI of a path: the one place where URIs are read and made.
//!
//! Editors name documents by URI (Language Server Protocol 3.17, "URI"), and two spellings may name one file; the
//! session names it by its path. `file_path` reads a URI as the URL Standard does (RFC 3986, RFC 8089) and decodes
//! its path. It knows nothing of documents or folders, and touches no file.
#![tactic(auto)]

ghost use Rattle.std.specs.Prelude.{◌≡◌, Ok, Some, None, Err, IfOk};
ghost use Rattle.std.specs.Str.{chars};
ghost use Rattle.percent_encoding.specs.Percent.{percent_decode};
ghost use Rattle.url.specs.Parser.{IsOutOfRoom};
ghost use Rattle.file_uri.specs.Paths as paths;

use hl_base::{OutOfMemory, Text};
use percent_encoding::{
    AsciiSet, NON_ALPHANUMERIC, ascii_set, percent_decode, utf8_percent_encode,
};
use std::alloc::{AllocError, Global};
use std::str;
use thiserror::Error;
use url::{ParseError, Url};

/// Why there is no path of a URI.
#[derive(Clone, Copy, Debug, PartialEq, Eq, Error)]
pub enum UriFault {
    /// It is no URI of a file of this host, or its decoded path is no UTF-8.
    #[error("no file URI")]
    BadUri,

    /// There was no memory for the path.
    #[error("out of memory")]
    OutOfMemory,
}

impl From<OutOfMemory> for UriFault {
    ghost use Rattle.std.specs.Prelude.{◌≡◌};
    ghost use Rattle.file_uri.specs.declared.UriFault.TheVariants as fault;

    ghost from_gives = { λ _ e. e ≡ fault.OutOfMemory };

    fn from(_refused: OutOfMemory) -> UriFault {
        UriFault::OutOfMemory
    }
}

impl From<AllocError> for UriFault {
    ghost use Rattle.std.specs.Prelude.{◌≡◌};
    ghost use Rattle.file_uri.specs.declared.UriFault.TheVariants as fault;

    ghost from_gives = { λ _ e. e ≡ fault.OutOfMemory };

    fn from(_refused: AllocError) -> UriFault {
        UriFault::OutOfMemory
    }
}

/// The decoded path that the URI of a file names. The host is empty or `localhost`, a query and a fragment are passed
/// over, and `%2F` is a `/` of the path.
pub fn file_path(alloc: Global, uri: &str) -> Result<Text, UriFault>
    ensures path { IfOk result (λ path. paths.path_of (chars uri.now) ≡ Some path) }
    ensures refused { result ≡ Err UriFault.BadUri → paths.path_of (chars uri.now) ≡ None }
{
    match Url::parse(alloc, uri) {
        Ok(url) => local_path(alloc, &url),
        Err(refused) => Err(fault_of(refused)),
    }
}

/// What a refusal of the parser means: a URL too long for it is want of memory.
fn fault_of(refused: ParseError) -> UriFault
    ensures { result ≡ UriFault.BadUri → ¬ (IsOutOfRoom refused) }
{
    match refused {
        ParseError::OutOfMemory => UriFault::OutOfMemory,
        ParseError::Overflow => UriFault::OutOfMemory,
        _ => UriFault::BadUri,
    }
}

/// The decoded path of a URL that names a file of this host.
fn local_path(alloc: Global, url: &Url) -> Result<Text, UriFault>
    ensures path { IfOk result (λ path. paths.local_path (Ok url.now) ≡ Some path) }
    ensures refused { result ≡ Err UriFault.BadUri → paths.local_path (Ok url.now) ≡ None }
{
    if url.scheme() != "file" || url.has_host() {
        return Err(UriFault::BadUri);
    }
    decoded(alloc, url.path())
}

/// A path without its escapes, where that is UTF-8.
fn decoded(alloc: Global, path: &str) -> Result<Text, UriFault>
    ensures path { IfOk result (λ text. paths.text_of (percent_decode path.now) ≡ Some text) }
    ensures refused { result ≡ Err UriFault.BadUri → paths.text_of (percent_decode path.now) ≡ None }
{
    let mut bytes = Vec::new(alloc);
    percent_decode(path.as_bytes()).append_to(&mut bytes)?;
    match str::from_utf8(&bytes) {
        Ok(text) => Ok(Text::of(alloc, text)?),
        Err(_) => Err(UriFault::BadUri),
    }
}

/// The bytes of a path that are escaped, of those of ASCII.
const ESCAPED: AsciiSet = ascii_set!(
    NON_ALPHANUMERIC
        .remove(b'-')
        .remove(b'.')
        .remove(b'_')
        .remove(b'~')
        .remove(b'/')
);

/// The URI of the file of a path: `file://` and the path, with every byte escaped but letters, digits and `- . _ ~ /`.
pub fn uri_of(alloc: Global, path: &str) -> Result<Text, OutOfMemory>
    ensures { IfOk result (λ uri. uri ≡ paths.uri_of (chars path.now)) }
{
    let mut uri = String::from_str(alloc, "file://")?;
    utf8_percent_encode(path, ESCAPED).append_to(&mut uri)?;
    Text::of(alloc, &uri)
}
