//! Where breakpoints are set.
ghost use Rattle.std.specs.Prelude.{◌≡◌, [], IfOk, OnOk, OnErr};
ghost use Rattle.macro_debugger.specs.Stops.{in_order, replaced, is_set};

use hl_base::{Origin, OutOfMemory, PathId};
use std::alloc::Global;
use std::collections::{BTreeMap, BTreeSet};
use std::marker::Model;

/// The lines at which breakpoints are set, by the numbers of files.
#[derive(Drop)]
pub(crate) struct Breakpoints {
    // There are no files before breakpoints are set for the first time, so that a launch needs no allocator.
    files: Option<BTreeMap<u32, BTreeSet<u32>>>,
}

impl Model for Breakpoints {
    ghost use Rattle.macro_debugger.specs.Stops.{Breaks};

    ghost Value = { Breaks };

    ghost use Rattle.macro_debugger.specs.Seen.{seen};

    ghost view = { λ b. seen b.files };
}

/// Lines in order.
fn in_order(alloc: Global, lines: &[u32]) -> Result<BTreeSet<u32>, OutOfMemory>
    ensures { IfOk result (λ set. set.keys ≡ in_order lines.now) }
{
    let mut set = BTreeSet::new(alloc);
    for line in lines {
        set.insert(*line)?;
    }
    Ok(set)
}

impl Breakpoints {
    /// None is set. It takes no memory.
    pub(crate) fn none() -> Breakpoints
        ensures { result ≡ [] }
    {
        Breakpoints { files: None }
    }

    /// Breakpoints at these lines of a file, in place of those that it had. An `Err` changes nothing.
    pub(crate) fn set(
        &mut self,
        alloc: Global,
        path: PathId,
        lines: &[u32],
    ) -> Result<(), OutOfMemory>
        ensures set { OnOk result (self.new ≡ replaced path.0 lines.now self.old) }
        ensures refused { OnErr result (self.new ≡ self.old) }
    {
        let set = in_order(alloc, lines)?;
        let mut files = match self.files.take() {
            Some(files) => files,
            None => BTreeMap::new(alloc),
        };
        let inserted = files.insert(path.0, set);
        self.files = Some(files);
        inserted?;
        Ok(())
    }

    /// Whether one is set where a statement begins.
    pub(crate) fn hold(&self, at: Origin) -> bool
        ensures { result ≡ is_set self.now at }
    {
        let Some(files) = &self.files else {
            return false;
        };
        match files.get(&at.path.0) {
            Some(lines) => lines.contains(&at.line),
            None => false,
        }
    }
}
