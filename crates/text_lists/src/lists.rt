//! The statements of texts.
ghost use Rattle.std.specs.Prelude.{◌≡◌, [], OnOk, MatchOption};
ghost use Rattle.std.specs.Option.{option_copied};
ghost use Rattle.std.specs.Str.{chars};
ghost use Rattle.hlasm_statements.specs.Statements.{statements_of};
ghost use Rattle.statement_listing.specs.Listings.{listing_of};
ghost use Rattle.text_lists.specs.Lists as lists;

use crate::list::TextList;
use hl_base::{Origin, OutOfMemory, PathId};
use indexmap::IndexMap;
use statement_listing::{Line, Listing};
use std::alloc::Global;
use std::marker::Model;

/// The statements of texts, each under its path. Contracts see the list of them, in the order in which they came.
#[derive(Drop)]
pub struct TextLists {
    texts: IndexMap<u32, TextList>,
}

impl Model for TextLists {
    ghost use Rattle.std.specs.Prelude.{List};
    ghost use Rattle.text_lists.specs.Lists.{Source};
    ghost use Rattle.text_lists.specs.Held.{sources_in};

    ghost Value = { List Source };

    ghost view = { λ s. sources_in s.texts.entries };
}

impl TextLists {
    /// No text. It takes no memory.
    pub fn new(alloc: Global) -> TextLists
        ensures { result ≡ [] }
    {
        TextLists {
            texts: IndexMap::new(alloc),
        }
    }

    /// The statements of the text of a path, if it is there.
    fn text_of(&self, path: PathId) -> Option<&TextList>
        ensures { option_copied result ≡ lists.list_of self.now path.0 }
    {
        self.texts.get(&path.0)
    }

    /// Takes in the text of a path. A path that has one keeps it. `OutOfMemory` also where it has more statements than a `u32`
    /// counts; an `Err` changes nothing.
    pub fn add(&mut self, alloc: Global, path: PathId, text: &str) -> Result<(), OutOfMemory>
        ensures { OnOk result (self.new ≡ lists.with_list self.old path.0 (listing_of path (statements_of (chars text.now)))) }
    {
        if self.text_of(path).is_some() {
            return Ok(());
        }
        let list = TextList::of(alloc, path, text)?;
        self.texts.insert(path.0, list)?;
        Ok(())
    }

    /// The list of the text of a path.
    pub fn list_of(&self, path: PathId) -> Option<&Listing>
        ensures { option_copied result ≡ lists.list_of self.now path.0 }
    {
        match self.text_of(path) {
            Some(text) => Some(text.list()),
            None => None,
        }
    }

    /// The number, from 0, of the statement that begins at a place among those of its text.
    pub fn number_at(&self, origin: Origin) -> Option<u32>
        ensures { result ≡ lists.number_at self.now origin }
    {
        match self.text_of(origin.path) {
            Some(text) => text.number_at(origin.line),
            None => None,
        }
    }

    /// The statement that begins at a place. It has a place in the text for each character of its fields.
    pub fn line_at(&self, origin: Origin) -> Option<&Line>
        ensures found { option_copied result ≡ lists.line_at self.now origin }
        ensures whole { MatchOption result (Unit {0}) (λ one. lists.IsWhole one.now.statement) }
    {
        match self.text_of(origin.path) {
            Some(text) => text.line_at(origin.line),
            None => None,
        }
    }
}
