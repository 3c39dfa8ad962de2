//! The numbers of trees, from left to right.
ghost use Rattle.std.specs.Prelude.{◌≡◌, ℕ, pos, negsuc, fold};
ghost use Rattle.std.specs.Str.{chars};
ghost use Rattle.kept_values.specs.Trees.{Tree, Leaf, Fork, mixed, number_from};
ghost use Rattle.kept_values.specs.Lists.{list_tree, bit_tree, integer_tree};

/// FNV's factor for 64 bits.
const FACTOR: u64 = 1_099_511_628_211;

/// The number of what stood before, and of one number more.
pub(crate) fn mixed(start: u64, next: u64) -> u64
    ensures { result ≡ mixed start next }
{
    start.wrapping_mul(FACTOR).wrapping_add(next)
}

/// The same for the bytes of an ASCII text.
pub(crate) fn bytes_number(start: u64, bytes: &[u8]) -> u64
    ensures { result ≡ number_from start (list_tree bytes.now) }
{
    let mut number = start;
    for byte in bytes {
        number = mixed(number, u64::from(*byte));
    }
    mixed(number, 0)
}

/// The same for the characters of a text.
pub(crate) fn text_number(start: u64, text: &str) -> u64
    ensures { result ≡ number_from start (list_tree (chars text.now)) }
{
    let mut number = start;
    for character in text.chars() {
        number = mixed(number, u64::from(u32::from(character)));
    }
    mixed(number, 0)
}
