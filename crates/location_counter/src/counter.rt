//! The counter.
ghost use Rattle.std.specs.Prelude.{◌≤◌};

use crate::boundary::aligned;

/// How many bytes a section has at most.
pub const MOST_BYTES: u32 = 16_777_216;

/// The location counter of a section: where its next byte goes, and the highest place where it stood.
#[derive(Clone, Copy, Debug, PartialEq, Eq)]
pub struct Counter {
    pub at: u32,
    pub length: u32,
    pub ghost within: { at ≤ length },
    pub ghost small: { length ≤ 16777216 },
}

impl Counter {
    ghost use Rattle.std.specs.Prelude.{◌≡◌, ◌+◌, ◌<◌, ◌≤◌, ◌↔◌, IsSome, IfSome, IfNone, IsTrue};
    ghost use Rattle.std.specs.Bool.{OnTrue, OnFalse};
    ghost use Rattle.location_counter.specs.Counters.{aligned, most_bytes, Moves, Stays};

    /// A section that has no byte yet.
    pub fn new() -> Counter
        ensures at { result.at ≡ 0 }
        ensures length { result.length ≡ 0 }
    {
        Counter { at: 0, length: 0 }
    }

    /// The counter goes on at a place, which is not too far.
    fn go_to(&mut self, at: u32)
        requires { at ≤ MOST_BYTES }
        ensures { Moves self.old self.new at }
    {
        let length = self.length.max(at);
        *self = Counter { at, length };
    }

    /// Takes so many bytes on a boundary, and says where they begin; nothing changes where the section would get longer than
    /// `MOST_BYTES`. No byte only goes on to the boundary.
    pub fn take(&mut self, boundary: u32, bytes: u64) -> Option<u32>
        requires { 0 < boundary }
        ensures fits { IsSome result ↔ (aligned self.old.at boundary + bytes ≤ most_bytes) }
        ensures begins { IfSome result (λ at. at ≡ aligned self.old.at boundary) }
        ensures takes { IfSome result (λ at. Moves self.old self.new (at + bytes)) }
        ensures stays { IfNone result (Stays self.old self.new) }
    {
        let begin = aligned(self.at, boundary);
        if begin > u64::from(MOST_BYTES) || bytes > u64::from(MOST_BYTES) - begin {
            return None;
        }
        self.go_to((begin + bytes) as u32);
        Some(begin as u32)
    }

    /// ORG: the counter goes on at a place, and says whether it does; nothing changes where the section would get longer than
    /// `MOST_BYTES`.
    pub fn org(&mut self, at: u32) -> bool
        ensures fits { IsTrue result ↔ (at ≤ most_bytes) }
        ensures moves { OnTrue result (Moves self.old self.new at) }
        ensures stays { OnFalse result (Stays self.old self.new) }
    {
        if at > MOST_BYTES {
            return false;
        }
        self.go_to(at);
        true
    }

    /// ORG without an operand: the counter goes on at the highest place where it stood.
    pub fn org_to_end(&mut self)
        ensures { Moves self.old self.new self.old.length }
    {
        let end = self.length;
        self.go_to(end);
    }
}
