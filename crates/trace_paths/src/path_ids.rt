//! Paths in order.
ghost use Rattle.std.specs.Prelude.{◌≡◌, [], ◌∷◌, ◌++◌, OnOk, OnErr};

use hl_base::{OutOfMemory, PathId};
use std::alloc::Global;
use std::marker::Model;

/// Paths in order. Contracts see the list.
#[derive(Drop)]
pub struct PathIds {
    paths: Vec<PathId>,
}

impl Model for PathIds {
    ghost use Rattle.std.specs.Prelude.{List};
    ghost use Rattle.hl_base.specs.declared.place.PathId.{PathId};

    ghost Value = { List PathId };

    ghost view = { λ s. s.paths.items };
}

impl PathIds {
    /// No path.
    pub fn new(alloc: Global) -> PathIds
        ensures { result ≡ [] }
    {
        PathIds {
            paths: Vec::new(alloc),
        }
    }

    /// Adds a path behind those that are there. An `Err` changes nothing.
    pub fn push(&mut self, path: PathId) -> Result<(), OutOfMemory>
        ensures ok { OnOk result (self.new ≡ self.old ++ path ∷ []) }
        ensures err { OnErr result (self.new ≡ self.old) }
    {
        self.paths.push(path)?;
        Ok(())
    }

    /// The paths in order.
    pub fn as_slice(&self) -> &[PathId]
        ensures { result.now ≡ self.now }
    {
        self.paths.as_slice()
    }
}
