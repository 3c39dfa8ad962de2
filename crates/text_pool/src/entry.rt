//! What the pool holds of a text.
ghost use Rattle.std.specs.Prelude.{◌≡◌};
ghost use Rattle.std.specs.Rc.{rc_str_bytes};
ghost use Rattle.text_pool.specs.Marks.{mark_of};

use std::hash::{FoldHasher, Hasher};
use std::rc::RcStr;

/// How many bytes of a text its mark is made of, so that a long text is marked as fast as a short one.
const MARKED: usize = 512;

/// A number that stands for a text as it is sought: a hash of its first bytes and its length. Equal texts have one mark, and
/// texts that differ have the same only by chance, or where they differ behind these bytes.
fn mark_of(text: &str) -> u64
    ensures { result ≡ mark_of text.now }
{
    let bytes = text.as_bytes();
    let mut hasher = FoldHasher::default();
    hasher.write(&bytes[..bytes.len().min(MARKED)]);
    hasher.write_usize(bytes.len());
    hasher.finish()
}

/// A text as it is sought: by its mark, and then by its bytes. So nearly all texts are told apart without reading them.
#[derive(PartialEq, Eq, PartialOrd, Ord, Drop)]
pub(crate) struct Key {
    pub(crate) mark: u64,
    pub(crate) text: RcStr,
}

impl Key {
    /// A text as it is sought.
    pub(crate) fn of(text: RcStr) -> Key
        ensures { result ≡ record { mark = mark_of (rc_str_bytes text); text = text } }
    {
        Key {
            mark: mark_of(text.as_str()),
            text,
        }
    }
}

/// A live text, where its lines begin, and how many own it.
#[derive(Drop)]
pub(crate) struct Entry {
    pub(crate) key: Key,
    pub(crate) starts: Vec<u32>,
    pub(crate) owners: u64,
}
