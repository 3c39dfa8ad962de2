//! Worlds: what a machine asks and changes.
ghost use Rattle.std.specs.Prelude.{◌≡◌, ℕ, IfOk, OnOk, OnErr};
ghost use Rattle.kept_values.specs.Trees.{Tree};
ghost use Rattle.asking_core.specs.Worlds.{WorldModel};

use hl_base::OutOfMemory;
use kept_values::Kept;
use std::alloc::Global;

/// What surrounds the calls of a machine. What it answers is a function of its state.
pub trait World {
    type Key: Kept;

    type Value: Kept;

    /// The states, what they answer, and those that follow.
    ghost model: { WorldModel };

    /// The state that a world is in.
    ghost state: { Self → (model).State };

    /// The value of a key. It changes no answer, whether there is memory or not.
    fn ask(&mut self, alloc: Global, key: &Self::Key) -> Result<Self::Value, OutOfMemory>
        ensures value { IfOk result (λ v. Self.Value.code v ≡ (model).answer (state self.old) (Self.Key.code key.now)) }
        ensures kept { state self.new ≡ state self.old };

    /// Gives a key a value. Want of memory changes nothing.
    fn put(&mut self, alloc: Global, key: Self::Key, value: Self::Value) -> Result<(), OutOfMemory>
        ensures ok { OnOk result (state self.new ≡ (model).after_put (state self.old) (Self.Key.code key) (Self.Value.code value)) }
        ensures err { OnErr result (state self.new ≡ state self.old) };

    /// Tells it of so many counted calls.
    fn bump(&mut self, calls: u32)
        ensures { state self.new ≡ (model).after_bump (state self.old) calls };

    /// Tells it that a nested call begins.
    fn enter(&mut self)
        ensures { state self.new ≡ (model).after_enter (state self.old) };

    /// Tells it that the nested call which began last has ended, in whichever way.
    fn leave(&mut self)
        ensures { state self.new ≡ (model).after_leave (state self.old) };

    /// Tells it which of its outermost statements, counted from 0, is processed now.
    fn at(&mut self, statement: u32)
        ensures { state self.new ≡ (model).after_at (state self.old) statement };
}
