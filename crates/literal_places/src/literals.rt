//! The pools of an assembly.
ghost use Rattle.std.specs.Prelude.{◌≡◌, ◌==◌, length, sum, IfOk, OnOk, OnErr};
ghost use Rattle.literal_pools.specs.Pools.{lengths};
ghost use Rattle.literal_places.specs.Places as spec;

use hl_base::OutOfMemory;
use literal_pools::Pool;
use section_table::Place;
use std::alloc::Global;

/// A literal that was used: the number of its pool, counted from 0, and its place in the order of first use there.
#[derive(Clone, Copy, Debug, PartialEq, Eq)]
pub struct LiteralUse {
    pub pool: usize,
    pub place: usize,
}

/// A pool that is closed: where it begins, if it has a place, and where its literals stand behind that.
#[derive(Drop)]
pub(crate) struct ClosedPool {
    pub(crate) base: Option<Place>,
    pub(crate) offsets: Vec<u64>,
}

/// The literals of an assembly. Contracts see those of the current pool, and the pools that were closed before.
#[derive(Drop)]
pub struct Literals {
    pub(crate) current: Pool,
    pub(crate) closed: Vec<ClosedPool>,
}

/// A place so far behind another, if 32 bits count it.
fn behind(base: Place, offset: u64) -> Option<Place>
    ensures { result ≡ spec.behind base offset }
{
    let sum = u64::from(base.offset).checked_add(offset)?;
    match u32::try_from(sum) {
        Ok(offset) => Some(Place {
            section: base.section,
            offset,
        }),
        Err(_) => None,
    }
}

impl Literals {
    ghost use Rattle.literal_places.specs.Shown.{literals_of};

    /// No literal. It takes no memory.
    pub fn new(alloc: Global) -> Literals
        ensures { literals_of result ≡ spec.empty }
    {
        Literals {
            current: Pool::new(alloc),
            closed: Vec::new(alloc),
        }
    }

    /// Whether the current pool has no literal.
    pub fn is_empty(&self) -> bool
        ensures { result ≡ (length (literals_of self.now).current == 0) }
    {
        self.current.is_empty()
    }

    /// How many bytes the current pool takes.
    pub fn size(&self) -> u64
        ensures { result ≡ sum (lengths (literals_of self.now).current) }
    {
        self.current.size()
    }

    /// A literal is used, and joins the current pool: where it is there. An `Err` changes nothing.
    #[tactic(auto, using(crate::proofs::Closing::closed_count))]
    pub fn add(
        &mut self,
        alloc: Global,
        text: &str,
        length: u32,
    ) -> Result<Option<LiteralUse>, OutOfMemory>
        ensures added { OnOk result (literals_of self.new ≡ spec.with_literal (record { text = text.now; length = length }) (literals_of self.old)) }
        ensures used { IfOk result (λ found. found ≡ spec.use_of text.now (literals_of self.new)) }
        ensures kept { OnErr result (literals_of self.new ≡ literals_of self.old) }
    {
        self.current.add(alloc, text, length)?;
        match self.current.place(text) {
            Some(place) => Ok(Some(LiteralUse {
                pool: self.closed.len(),
                place,
            })),
            None => Ok(None),
        }
    }

    /// The current pool is closed, with a place or without one, and another begins. An `Err` changes nothing.
    #[tactic(auto, using(crate::proofs::Offsets::offsets_are, crate::proofs::Closing::closed_push))]
    pub fn close(&mut self, alloc: Global, base: Option<Place>) -> Result<(), OutOfMemory>
        ensures closed { OnOk result (literals_of self.new ≡ spec.closed_at base (literals_of self.old)) }
        ensures kept { OnErr result (literals_of self.new ≡ literals_of self.old) }
    {
        let offsets = self.current.offsets(alloc)?;
        self.closed.push(ClosedPool { base, offsets })?;
        self.current = Pool::new(alloc);
        Ok(())
    }

    /// Where a literal of a closed pool stands, if its pool has a place.
    #[tactic(auto, using(crate::proofs::Closing::closed_get))]
    pub fn place(&self, at: LiteralUse) -> Option<Place>
        ensures { result ≡ spec.place_of (literals_of self.now) at }
    {
        let pool = self.closed.get(at.pool)?;
        let base = pool.base?;
        let offset = pool.offsets.get(at.place)?;
        behind(base, *offset)
    }
}
