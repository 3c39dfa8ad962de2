//! The text in which places stand.
ghost use Rattle.std.specs.Prelude.{◌≡◌, IfOk, OnOk};
ghost use Rattle.text_sites.specs.Sites.{site_at};
ghost use Rattle.symbol_answers.specs.Seen.{seen};
ghost use Rattle.symbol_answers.specs.Answers.{location_in};

use crate::place::Place;
use document_store::DocumentStore;
use hl_base::{OutOfMemory, PathId};
use lsp_messages::Location;
use std::alloc::Global;
use text_sites::{TextSite, site_at};

/// The site of a path, which stands for the places of one path after the other.
#[derive(Drop)]
pub(crate) struct KeptSite<'a> {
    store: &'a DocumentStore,
    number: u32,
    site: TextSite<'a>,
    ghost known: { site ≡ site_at store.now.store number },
}

impl<'a> KeptSite<'a> {
    ghost use Rattle.symbol_answers.specs.Kept.{store_in};

    /// The site of the path of a number.
    pub(crate) fn of(
        alloc: Global,
        store: &'a DocumentStore,
        number: u32,
    ) -> Result<KeptSite<'a>, OutOfMemory>
        ensures store { IfOk result (λ kept. store_in kept ≡ store.now.store) }
        ensures number { IfOk result (λ kept. kept.number ≡ number) }
    {
        let site = site_at(alloc, store, PathId(number))?;
        Ok(KeptSite {
            store,
            number,
            site,
        })
    }

    /// Goes to the path of a number.
    pub(crate) fn turn_to(&mut self, alloc: Global, number: u32) -> Result<(), OutOfMemory>
        ensures store { store_in self.new ≡ store_in self.old }
        ensures number { OnOk result (self.new.number ≡ number) }
    {
        if self.number == number {
            return Ok(());
        }
        let site = site_at(alloc, self.store, PathId(number))?;
        self.number = number;
        self.site = site;
        Ok(())
    }

    /// A place in it, as the client is shown it.
    pub(crate) fn location(&self, alloc: Global, place: &Place<'_>) -> Result<Location, OutOfMemory>
        ensures { IfOk result (λ location. location ≡ location_in (site_at (store_in self.now) self.now.number) (seen place.now)) }
    {
        Ok(Location {
            uri: self.site.uri().copy(alloc)?,
            range: self.site.span(place.line, place.from, place.to),
        })
    }
}
