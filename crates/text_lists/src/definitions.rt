//! The statements of definitions.
ghost use Rattle.std.specs.Prelude.{◌≡◌, ◌++◌, [], map, IfOk, OnOk};
ghost use Rattle.std.specs.List.{flat_map};
ghost use Rattle.std.specs.Option.{option_copied};
ghost use Rattle.indexmap.specs.IndexMap.{values};
ghost use Rattle.text_lists.specs.Definitions as definitions;
ghost use Rattle.text_lists.specs.DefinitionPlaces as held;

use hl_base::{Origin, OutOfMemory, PathId};
use indexmap::IndexMap;
use statement_listing::{Line, Listing};
use std::alloc::Global;
use std::marker::Model;

/// Where a prototype stands.
#[derive(Clone, Copy, PartialEq, Eq, Hash)]
pub(crate) struct Place {
    path: u32,
    line: u32,
}

/// The statements of macro definitions, by the places of their prototypes. Contracts see the list of them, in the order in which
/// they came.
#[derive(Drop)]
pub struct DefinitionLists {
    lists: IndexMap<Place, Listing>,
}

impl Model for DefinitionLists {
    ghost use Rattle.std.specs.Prelude.{List};
    ghost use Rattle.text_lists.specs.Definitions.{Defined};
    ghost use Rattle.text_lists.specs.HeldDefinitions.{defined_in};

    ghost Value = { List Defined };

    ghost view = { λ s. defined_in s.lists.entries };
}

/// A place in a file.
fn place_of(origin: Origin) -> Place
    ensures { result ≡ held.place_of origin }
{
    Place {
        path: origin.path.0,
        line: origin.line,
    }
}

/// Adds the paths of statements.
fn add_paths(paths: &mut Vec<PathId>, lines: &[Line]) -> Result<(), OutOfMemory>
    ensures { OnOk result (map (λ p. p.0) paths.new.items ≡ map (λ p. p.0) paths.old.items ++ definitions.line_paths lines.now) }
{
    for line in lines {
        paths.push(line.origin().path)?;
    }
    Ok(())
}

/// The paths of the statements of lists.
fn paths_of(alloc: Global, lists: &IndexMap<Place, Listing>) -> Result<Vec<PathId>, OutOfMemory>
    ensures { IfOk result (λ paths. map (λ p. p.0) paths.items ≡ flat_map definitions.line_paths (values lists.now)) }
{
    let mut paths = Vec::new(alloc);
    for list in lists.values() {
        add_paths(&mut paths, list.lines())?;
    }
    Ok(paths)
}

impl DefinitionLists {
    /// No definition. It takes no memory.
    pub fn new(alloc: Global) -> DefinitionLists
        ensures { result ≡ [] }
    {
        DefinitionLists {
            lists: IndexMap::new(alloc),
        }
    }

    /// The statements of the definition whose prototype stands at a place.
    pub fn list_of(&self, origin: Origin) -> Option<&Listing>
        ensures { option_copied result ≡ definitions.list_of self.now origin }
    {
        self.lists.get(&place_of(origin))
    }

    /// Takes in the statements of a definition. A place that has some keeps them. An `Err` changes nothing.
    pub fn add(&mut self, origin: Origin, list: Listing) -> Result<(), OutOfMemory>
        ensures { OnOk result (self.new ≡ definitions.with_list self.old origin list) }
    {
        if self.list_of(origin).is_some() {
            return Ok(());
        }
        self.lists.insert(place_of(origin), list)?;
        Ok(())
    }

    /// The paths of all their statements.
    pub fn paths(&self, alloc: Global) -> Result<Vec<PathId>, OutOfMemory>
        ensures { IfOk result (λ paths. map (λ p. p.0) paths.items ≡ flat_map definitions.defined_paths self.now) }
    {
        paths_of(alloc, &self.lists)
    }
}
