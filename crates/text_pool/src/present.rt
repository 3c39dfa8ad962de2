//! What is present for an assembly, seen through a bound.
ghost use Rattle.std.specs.Prelude.{◌≡◌, ℕ, List};
ghost use Rattle.text_pool.specs.Pool.{Pool};
ghost use Rattle.text_pool.specs.Members.{Member, Tells};

use crate::TextPool;
use hl_base::{Answer, Name};

/// The members that are found under names, and the pool that has their texts.
pub trait Present {
    /// What is found under each name.
    ghost members: { Self → List ℕ → Member };

    /// The live texts.
    ghost texts: { Self → Pool };

    /// What is found under a name: `Nothing`, `Unreadable`, or a `File` by the number of its path and that of its text,
    /// which is live in the pool. It takes no memory.
    fn member(&self, name: &Name) -> Answer
        ensures { Tells (texts self.now) (members self.now name.now) result };

    /// The pool that has the texts.
    fn pool(&self) -> &TextPool
        ensures { result.now ≡ texts self.now };
}
