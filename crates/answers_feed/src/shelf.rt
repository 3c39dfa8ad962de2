//! The members that the frames of one list name.
ghost use Rattle.std.specs.Prelude.{◌≡◌, IfOk, OnOk};
ghost use Rattle.answers_feed.specs.Sites.{shelf};
ghost use Rattle.answers_feed.specs.Inside.{AreSites, relation_in, member_of_shelf};

use crate::sites::member_site;
use crate::wording::frame_text;
use document_store::DocumentStore;
use hl_base::{Frame, OutOfMemory, PathId};
use library_folders::Folder;
use lsp_messages::Relation;
use std::alloc::Global;
use std::collections::HashMap;
use text_sites::TextSite;

/// The members of a store, each with its site once a frame has named it.
#[derive(Drop)]
pub(crate) struct Shelf<'a> {
    folders: &'a [Folder],
    store: &'a DocumentStore,
    sites: HashMap<u32, TextSite<'a>>,
    ghost known: { AreSites (shelf folders.now store.now.store) sites },
}

/// The site of the path of a number that is not the program's.
fn site_of<'a>(
    alloc: Global,
    folders: &[Folder],
    store: &'a DocumentStore,
    path: PathId,
) -> Result<TextSite<'a>, OutOfMemory>
    ensures { IfOk result (λ site. site ≡ member_of_shelf (shelf folders.now store.now.store) path.0) }
{
    match member_site(alloc, folders, store, path)? {
        Some(site) => Ok(site),
        None => Ok(TextSite::none(alloc)),
    }
}

/// A frame as the editor shows it, where this is the site in which it stands.
pub(crate) fn relation_in(
    alloc: Global,
    site: &TextSite<'_>,
    frame: &Frame,
) -> Result<Relation, OutOfMemory>
    ensures { IfOk result (λ relation. relation ≡ relation_in site.now frame.now) }
{
    Ok(Relation {
        uri: site.uri().copy(alloc)?,
        range: site.line_span(frame.origin.line),
        message: frame_text(alloc, frame)?,
    })
}

impl<'a> Shelf<'a> {
    ghost use Rattle.answers_feed.specs.Kept.{members_in};

    /// No member was named yet.
    pub(crate) fn new(alloc: Global, folders: &'a [Folder], store: &'a DocumentStore) -> Shelf<'a>
        ensures { members_in result ≡ shelf folders.now store.now.store }
    {
        Shelf {
            folders,
            store,
            sites: HashMap::new(alloc),
        }
    }

    /// A frame as the editor shows it, which stands in a member.
    pub(crate) fn relation_of(
        &mut self,
        alloc: Global,
        frame: &Frame,
    ) -> Result<Relation, OutOfMemory>
        ensures relation { IfOk result (λ relation. relation ≡ relation_in (member_of_shelf (members_in self.old) frame.now.origin.path.0) frame.now) }
        ensures same { OnOk result (members_in self.new ≡ members_in self.old) }
    {
        let path = frame.origin.path;
        if let Some(site) = self.sites.get(&path.0) {
            return relation_in(alloc, site, frame);
        }
        let site = site_of(alloc, self.folders, self.store, path)?;
        let relation = relation_in(alloc, &site, frame)?;
        self.sites.insert(path.0, site)?;
        Ok(relation)
    }
}
