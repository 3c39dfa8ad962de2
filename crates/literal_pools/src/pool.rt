//! A pool of literals.
ghost use Rattle.std.specs.Prelude.{◌≡◌, ◌==◌, ◌<◌, ◌++◌, ◌∷◌, [], None, length, sum, IfOk, OnOk, OnErr, vec_len, vec_capacity};
ghost use Rattle.literal_pools.specs.Pools as pools;
ghost use Rattle.literal_pools.specs.Pools.{place_of, with_literal};

use crate::offsets::offsets;
use hl_base::OutOfMemory;
use indexmap::IndexSet;
use std::alloc::Global;

/// A pool of literals: each text once, in order of first use, with its length.
#[derive(Drop)]
pub struct Pool {
    texts: IndexSet<String>,
    lengths: Vec<u32>,
    size: u64,
    ghost paired: { length texts.keys ≡ length lengths.items },
    ghost summed: { size ≡ sum lengths.items },
}

impl Pool {
    ghost use Rattle.literal_pools.specs.Pools.{AreOffsets};
    ghost use Rattle.literal_pools.specs.Shown.{literals_of};

    /// A pool of no literal. It takes no memory.
    pub fn new(alloc: Global) -> Pool
        ensures { literals_of result ≡ [] }
    {
        Pool {
            texts: IndexSet::new(alloc),
            lengths: Vec::new(alloc),
            size: 0,
        }
    }

    /// The place of the literal of a text in the order of first use.
    pub fn place(&self, text: &str) -> Option<usize>
        ensures { result ≡ place_of (literals_of self.now) text.now }
    {
        self.texts.get_index_of(text)
    }

    /// A literal is used; one of the same text that is there is the same, and keeps its length. An `Err` changes nothing; it
    /// comes too where the bytes of all literals could not be counted.
    pub fn add(&mut self, alloc: Global, text: &str, length: u32) -> Result<(), OutOfMemory>
        ensures added { OnOk result (literals_of self.new ≡ with_literal (literals_of self.old) (record { text = text.now; length = length })) }
        ensures kept { OnErr result (literals_of self.new ≡ literals_of self.old) }
    {
        match self.place(text) {
            Some(_) => Ok(()),
            None => self.admit(alloc, text, length),
        }
    }

    /// A literal of a new text goes last.
    fn admit(&mut self, alloc: Global, text: &str, length: u32) -> Result<(), OutOfMemory>
        requires { place_of (literals_of self.old) text.now ≡ None }
        ensures admitted { OnOk result (literals_of self.new ≡ literals_of self.old ++ record { text = text.now; length = length } ∷ []) }
        ensures kept { OnErr result (literals_of self.new ≡ literals_of self.old) }
    {
        let Some(size) = self.size.checked_add(u64::from(length)) else {
            return Err(OutOfMemory);
        };
        let key = String::from_str(alloc, text)?;
        self.lengths.reserve(1)?;
        self.texts.insert(key)?;
        push_within(&mut self.lengths, length);
        self.size = size;
        Ok(())
    }

    /// Whether it has no literal.
    pub fn is_empty(&self) -> bool
        ensures { result ≡ (length (literals_of self.now) == 0) }
    {
        self.lengths.is_empty()
    }

    /// How many bytes the pool takes.
    pub fn size(&self) -> u64
        ensures { result ≡ sum (pools.lengths (literals_of self.now)) }
    {
        self.size
    }

    /// Where each literal stands behind the start of the pool, in bytes, in order of first use.
    pub fn offsets(&self, alloc: Global) -> Result<Vec<u64>, OutOfMemory>
        ensures { IfOk result (λ offsets. AreOffsets (pools.lengths (literals_of self.now)) offsets.items) }
    {
        offsets(alloc, self.lengths.as_slice(), self.size)
    }
}

/// A length goes last, for which there is room.
fn push_within(lengths: &mut Vec<u32>, length: u32)
    requires { vec_len lengths.old < vec_capacity lengths.old }
    ensures { lengths.new.items ≡ lengths.old.items ++ length ∷ [] }
{
    let _ = lengths.push(length);
}
