//! The trait of values that may be kept and compared.
ghost use Rattle.std.specs.Prelude.{◌≡◌, ◌↔◌, ℕ, IfOk, IsTrue};
ghost use Rattle.kept_values.specs.Trees.{Tree};

use hl_base::OutOfMemory;
use std::alloc::Global;

/// A value that may be kept, compared and looked for. A shared text or definition means its content.
pub trait Kept: Drop {
    /// What the value means.
    ghost code: { Self → Tree };

    /// The number of values that mean this.
    ghost number_of: { Tree → ℕ };

    /// Whether both mean one value.
    fn same(&self, other: &Self) -> bool
        ensures { IsTrue result ↔ (code self.now ≡ code other.now) };

    /// A number by which equal values are found. Different values may have it too.
    fn number(&self) -> u64
        ensures { result ≡ number_of (code self.now) };

    /// Another value that means the same.
    fn copy(&self, alloc: Global) -> Result<Self, OutOfMemory>
        ensures { IfOk result (λ r. code r ≡ code self.now) };
}
