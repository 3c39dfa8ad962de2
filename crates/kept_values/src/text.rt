//! Names and texts as kept values: the lists of their characters.
ghost use Rattle.std.specs.Prelude.{◌≡◌, ◌↔◌, IfOk, IsTrue};
ghost use Rattle.kept_values.specs.Trees.{Tree, tree_number};
ghost use Rattle.kept_values.specs.Lists.{list_tree};

use crate::Kept;
use crate::number::{bytes_number, text_number};
use hl_base::{Name, OutOfMemory, Text};
use std::alloc::Global;

/// Whether two names are one.
pub(crate) fn same_name(one: &Name, other: &Name) -> bool
    ensures { IsTrue result ↔ (one.now ≡ other.now) }
{
    one.text() == other.text()
}

/// Whether two texts have the same characters.
pub(crate) fn same_text(one: &Text, other: &Text) -> bool
    ensures { IsTrue result ↔ (one.now ≡ other.now) }
{
    one.as_str() == other.as_str()
}

impl Kept for Name {
    ghost code = { list_tree };

    ghost number_of = { tree_number };

    fn same(&self, other: &Self) -> bool {
        same_name(self, other)
    }

    fn number(&self) -> u64 {
        bytes_number(0, self.text().as_bytes())
    }

    fn copy(&self, _alloc: Global) -> Result<Self, OutOfMemory> {
        Ok(Name::copy(self))
    }
}

impl Kept for Text {
    ghost code = { list_tree };

    ghost number_of = { tree_number };

    fn same(&self, other: &Self) -> bool {
        same_text(self, other)
    }

    fn number(&self) -> u64 {
        text_number(0, self.as_str())
    }

    fn copy(&self, alloc: Global) -> Result<Self, OutOfMemory> {
        Text::copy(self, alloc)
    }
}
