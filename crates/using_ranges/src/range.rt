//! The range of one register.
ghost use Rattle.std.specs.Prelude.{◌≡◌, ℕ, ◌↔◌, ℤ, pos, ◌+ℤ◌, ◌<ℤ◌, IsTrue, MatchOption};
ghost use Rattle.using_ranges.specs.Ranges.{IsWithin, IsBefore};

use trace_values::SectionId;

/// How many bytes a register covers.
pub const PAGE: u64 = 4096;

/// The range of one register: it begins so many times 4,096 bytes behind a place of a section, or behind a number where
/// there is no section. It covers nothing at its end or behind it.
#[derive(Clone, Copy, Debug, PartialEq, Eq)]
pub struct Range {
    pub section: Option<SectionId>,
    pub start: i32,
    pub pages: usize,
    pub end: Option<i32>,
}

impl Range {
    /// How many bytes an address stands behind where the range begins, if the range has it.
    pub fn displacement(&self, section: Option<SectionId>, offset: i32) -> Option<u16>
        ensures { MatchOption result ((d : ℕ) → IsWithin self.now section offset d → ⊥) (λ d. IsWithin self.now section offset d) }
    {
        if self.section != section || !self.has_before_end(offset) {
            return None;
        }
        let behind = self.behind(offset)?;
        if behind / PAGE != self.pages as u64 {
            return None;
        }
        Some((behind % PAGE) as u16)
    }

    /// How many bytes an address stands behind the start, if it does not stand before it.
    fn behind(&self, offset: i32) -> Option<u64>
        ensures { MatchOption result (offset <ℤ self.now.start) (λ n. self.now.start +ℤ pos n ≡ offset) }
    {
        let start = i64::from(self.start);
        let offset = i64::from(offset);
        if offset < start {
            return None;
        }
        Some((offset - start) as u64)
    }

    /// Whether an address stands before the range's end, if it has one.
    fn has_before_end(&self, offset: i32) -> bool
        ensures { IsTrue result ↔ IsBefore offset self.now.end }
    {
        match self.end {
            Some(end) => offset < end,
            None => true,
        }
    }
}
