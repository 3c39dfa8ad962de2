//! The texts of paths.
ghost use Rattle.std.specs.Prelude.{◌≡◌, Some, IfOk, option_map, slice_get};
ghost use Rattle.std.specs.Str.{chars};
ghost use Rattle.document_store.specs.Store.{present};
ghost use Rattle.text_sites.specs.Sites as sites;

use crate::TextSite;
use document_store::{DocumentStore, MemberText};
use file_uri::uri_of;
use hl_base::{OutOfMemory, PathId, Text};
use std::alloc::Global;

/// The path of a number, where that was given.
pub fn path_text(store: &DocumentStore, path: PathId) -> Option<&str>
    ensures { option_map (λ text. chars text.now) result ≡ slice_get store.now.store.paths path.0 }
{
    if (path.0 as usize) < store.path_count() {
        Some(store.path_text(path))
    } else {
        None
    }
}

/// The URI of a path and its number: the one with which its document was opened, else that of its file.
pub fn uri_at(
    alloc: Global,
    store: &DocumentStore,
    path: PathId,
    text: &str,
) -> Result<Text, OutOfMemory>
    requires named { slice_get store.now.store.paths path.0 ≡ Some (chars text.now) }
    ensures { IfOk result (λ uri. uri ≡ sites.uri_at store.now.store (chars text.now)) }
{
    match store.document_at(path) {
        Some(document) => Text::of(alloc, document.uri),
        None => uri_of(alloc, text),
    }
}

/// The site of a path and its number, where a text is present.
fn path_site<'a>(
    alloc: Global,
    store: &'a DocumentStore,
    path: PathId,
    text: &str,
) -> Result<Option<TextSite<'a>>, OutOfMemory>
    requires named { slice_get store.now.store.paths path.0 ≡ Some (chars text.now) }
    ensures { IfOk result (λ site. site ≡ sites.site_told (sites.uri_at store.now.store (chars text.now)) (present store.now.store (chars text.now))) }
{
    match store.present(path) {
        Some(MemberText::File(id)) => {
            let uri = uri_at(alloc, store, path, text)?;
            Ok(Some(TextSite::of(uri, store.pool(), id)))
        }
        Some(MemberText::Unreadable) => Ok(None),
        None => Ok(None),
    }
}

/// The site of the path of a number, where a text is present.
pub fn site_of<'a>(
    alloc: Global,
    store: &'a DocumentStore,
    path: PathId,
) -> Result<Option<TextSite<'a>>, OutOfMemory>
    ensures { IfOk result (λ site. site ≡ sites.site_of store.now.store path.0) }
{
    match path_text(store, path) {
        Some(text) => path_site(alloc, store, path, text),
        None => Ok(None),
    }
}

/// The same, or the empty text without a URI where none is present.
pub fn site_at<'a>(
    alloc: Global,
    store: &'a DocumentStore,
    path: PathId,
) -> Result<TextSite<'a>, OutOfMemory>
    ensures { IfOk result (λ site. site ≡ sites.site_at store.now.store path.0) }
{
    match site_of(alloc, store, path)? {
        Some(site) => Ok(site),
        None => Ok(TextSite::none(alloc)),
    }
}
