//! Where the frames of a program stand: in the program itself, or in a member.
ghost use Rattle.std.specs.Prelude.{◌≡◌, IfOk};
ghost use Rattle.document_store.specs.Store.{OpenDocument};
ghost use Rattle.answers_feed.specs.Sites.{IsOpen, shelf, own_site};

use document_store::DocumentStore;
use hl_base::{OutOfMemory, PathId};
use library_folders::{Folder, is_member};
use std::alloc::Global;
use text_sites::{TextSite, path_text, site_at, site_of};

/// The site of the member at the path of a number, where there is one and a text is present.
pub(crate) fn member_site<'a>(
    alloc: Global,
    folders: &[Folder],
    store: &'a DocumentStore,
    path: PathId,
) -> Result<Option<TextSite<'a>>, OutOfMemory>
    ensures { IfOk result (λ site. site ≡ shelf folders.now store.now.store path.0) }
{
    match path_text(store, path) {
        Some(text) => {
            if !is_member(folders, text) {
                return Ok(None);
            }
            site_of(alloc, store, path)
        }
        None => Ok(None),
    }
}

/// The site of the program at the path of a number.
pub(crate) fn program_site<'a>(
    alloc: Global,
    store: &'a DocumentStore,
    program: PathId,
) -> Result<TextSite<'a>, OutOfMemory>
    ensures { IfOk result (λ site. (document : OpenDocument) → IsOpen store.now.store program.0 document → site ≡ own_site document) }
{
    site_at(alloc, store, program)
}
