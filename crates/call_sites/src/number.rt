//! Numbers by which values are found.
ghost use Rattle.std.specs.Prelude.{◌≡◌};
ghost use Rattle.kept_values.specs.Trees as trees;

/// FNV's factor for 64 bits.
const FACTOR: u64 = 1_099_511_628_211;

/// The number of what stood before, and of one number more.
pub(crate) fn mixed(start: u64, next: u64) -> u64
    ensures { result ≡ trees.mixed start next }
{
    start.wrapping_mul(FACTOR).wrapping_add(next)
}
