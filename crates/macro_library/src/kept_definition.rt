//! A definition that is kept.
use crate::Def;
use hl_base::OutOfMemory;
use kept_values::Kept;
use std::alloc::Global;
use std::rc::Rc;

/// A shared definition. It means what the definition says at the places where it stands.
#[derive(Drop)]
pub struct KeptDefinition {
    pub definition: Rc<Def>,
}

impl Kept for KeptDefinition {
    ghost use Rattle.macro_library.specs.Trees.{definition_tree, definition_number};

    ghost code = { definition_tree };

    ghost number_of = { definition_number };

    #[tactic(auto, using(crate::proofs::TreeLaws::content_of_tree))]
    fn same(&self, other: &Self) -> bool {
        self.definition.same(&other.definition)
    }

    fn number(&self) -> u64 {
        self.definition.number()
    }

    fn copy(&self, _alloc: Global) -> Result<Self, OutOfMemory> {
        Ok(KeptDefinition {
            definition: self.definition.clone()?,
        })
    }
}
