//! Where literals stand in their pool, by their lengths alone.
ghost use Rattle.std.specs.Prelude.{◌≡◌, ◌+◌, ◌<◌, ◌≤◌, length, sum, IfOk, take, slice_index};
ghost use Rattle.literal_pools.specs.Pools.{AreOffsets, rank, bytes_before_rank, bytes_of_rank};

use hl_base::OutOfMemory;
use std::alloc::Global;

/// How many ranks of lengths there are.
const RANKS: usize = 4;

/// The rank of a length: 0 for multiples of 8, then those of 4, then those of 2, then all others.
fn rank(length: u32) -> usize
    ensures rank { result ≡ rank length }
    ensures small { result < RANKS }
{
    if length % 8 == 0 {
        return 0;
    }
    if length % 4 == 0 {
        return 1;
    }
    if length % 2 == 0 {
        return 2;
    }
    3
}

/// How many bytes the literals take whose rank is one before this.
#[tactic(auto, using(crate::proofs::Sums::before_more, crate::proofs::Sums::before_all, crate::proofs::Sums::before_none))]
fn bytes_before(lengths: &[u32], bound: usize, size: u64) -> u64
    requires { sum lengths.now ≡ size }
    ensures { result ≡ bytes_before_rank bound lengths.now }
{
    let mut bytes = 0;
    for length in lengths {
        if rank(*length) < bound {
            bytes += u64::from(*length);
        }
    }
    bytes
}

/// Where literals of these lengths, which take so many bytes together, stand in their pool.
pub(crate) fn offsets(alloc: Global, lengths: &[u32], size: u64) -> Result<Vec<u64>, OutOfMemory>
    requires { sum lengths.now ≡ size }
    ensures { IfOk result (λ offsets. AreOffsets lengths.now offsets.items) }
{
    let mut next: [u64; RANKS] = [
        0,
        bytes_before(lengths, 1, size),
        bytes_before(lengths, 2, size),
        bytes_before(lengths, 3, size),
    ];
    let mut offsets = Vec::new(alloc);
    for length in lengths {
        let rank = rank(*length);
        offsets.push(next[rank])?;
        next[rank] += u64::from(*length);
    }
    Ok(offsets)
}
