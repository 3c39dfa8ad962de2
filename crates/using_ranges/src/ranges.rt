//! The ranges in force.
ghost use Rattle.std.specs.Prelude.{◌≡◌, ℕ, ◌+◌, ◌^◌, ◌<◌, ◌&&◌, length, All, MatchOption, None, if◌then◌else◌};
ghost use Rattle.using_ranges.specs.Ranges.{range_at, Covers, IsCover, IsUsing, IsDropped, IsBestBelow, is_unused, is_among, mask_of};

use crate::Range;
use std::marker::Model;
use trace_values::{Reloc, SectionId};

/// How many registers there are.
pub const REGISTERS: usize = 16;

/// The ranges in force: at most one for each of the registers. Contracts see the list of the registers' ranges.
#[derive(Drop)]
pub struct Ranges {
    held: [Option<Range>; REGISTERS],
}

impl Model for Ranges {
    ghost use Rattle.using_ranges.specs.Ranges.{Held};

    ghost Value = { Held };

    ghost view = { λ r. r.held };

    ghost use Rattle.std.specs.Prelude.{◌≡◌, length};

    ghost invariant = { λ r. length r.held ≡ 16 };
}

impl Ranges {
    /// No register has a range.
    pub fn new() -> Ranges
        ensures none { (register : ℕ) → range_at result register ≡ None }
        ensures all { length result ≡ REGISTERS }
    {
        Ranges {
            held: [None; REGISTERS],
        }
    }

    /// Gives these registers, which are below 16, ranges of 4,096 bytes one behind the other, the first of which begins
    /// at the base. They cover nothing at the end or behind it, if there is one.
    pub fn using(&mut self, base: Reloc, end: Option<i32>, registers: &[u8])
        requires { All (λ r. r < REGISTERS) registers.now }
        ensures ranges { IsUsing self.old self.new base.section base.value end registers.now }
        ensures all { length self.new ≡ REGISTERS }
    {
        for (pages, register) in registers.iter().enumerate() {
            self.held[*register as usize] = Some(Range {
                section: base.section,
                start: base.value,
                pages,
                end,
            });
        }
    }

    /// Ends the ranges of these registers, which are below 16. The result has a bit for each of them that had none: bit 0
    /// for register 0.
    pub fn drop_regs(&mut self, registers: &[u8]) -> u16
        requires { All (λ r. r < REGISTERS) registers.now }
        ensures ranges { IsDropped self.old self.new registers.now }
        ensures all { length self.new ≡ REGISTERS }
        ensures unused { result ≡ mask_of (λ r. is_among r registers.now && is_unused self.old r) REGISTERS }
    {
        let unused = self.unused(registers);
        for register in registers {
            self.held[*register as usize] = None;
        }
        unused
    }

    /// The register and the displacement that an address is based on, if a range has it.
    #[tactic(auto, using(crate::proofs::Best::all_of_them, crate::proofs::Best::nothing_yet))]
    pub fn cover(&self, section: Option<SectionId>, offset: i32) -> Option<(u8, u16)>
        ensures { MatchOption result ((r d : ℕ) → Covers self.now section offset r d → ⊥)
            (λ found. IsCover self.now section offset found.0 found.1) }
    {
        let mut best = None;
        for register in 0..self.registers() {
            best = self.better(best, register, section, offset);
        }
        best
    }

    /// How many registers there are.
    fn registers(&self) -> u8
        ensures each { result ≡ length self.now }
        ensures number { result ≡ REGISTERS }
    {
        let held: &[Option<Range>] = &self.held;
        held.len() as u8
    }

    /// A bit for each of these registers that has no range.
    #[tactic(auto, using(crate::proofs::Masks::no_bits, crate::proofs::Masks::more_bits, crate::proofs::Masks::bits_below, crate::proofs::Masks::bits_fit))]
    fn unused(&self, registers: &[u8]) -> u16
        ensures { result ≡ mask_of (λ r. is_among r registers.now && is_unused self.now r) REGISTERS }
    {
        let mut mask = 0;
        for register in 0..REGISTERS as u8 {
            mask += bit(register, self.is_unused_among(register, registers));
        }
        mask
    }

    /// Whether a register is one of these and has no range.
    fn is_unused_among(&self, register: u8, registers: &[u8]) -> bool
        requires { register < REGISTERS }
        ensures { result ≡ (is_among register registers.now && is_unused self.now register) }
    {
        names(registers, register) && self.held[register as usize].is_none()
    }

    /// The better of what the registers below one give and of what that one gives.
    #[tactic(auto, using(crate::proofs::Best::adds_nothing, crate::proofs::Best::stays, crate::proofs::Best::begins, crate::proofs::Best::takes_over))]
    fn better(
        &self,
        best: Option<(u8, u16)>,
        register: u8,
        section: Option<SectionId>,
        offset: i32,
    ) -> Option<(u8, u16)>
        requires bound { register < REGISTERS }
        requires below { IsBestBelow self.now section offset register best }
        ensures { IsBestBelow self.now section offset (register + 1) result }
    {
        let Some(displacement) = self.displacement(register, section, offset) else {
            return best;
        };
        match best {
            Some((_, least)) if least < displacement => best,
            Some(_) => Some((register, displacement)),
            None => Some((register, displacement)),
        }
    }

    /// The displacement of an address behind where the range of a register begins, if that range has it.
    fn displacement(&self, register: u8, section: Option<SectionId>, offset: i32) -> Option<u16>
        requires { register < REGISTERS }
        ensures { MatchOption result ((d : ℕ) → Covers self.now section offset register d → ⊥)
            (λ d. Covers self.now section offset register d) }
    {
        match &self.held[register as usize] {
            Some(range) => range.displacement(section, offset),
            None => None,
        }
    }
}

/// Whether a register is one of these.
fn names(registers: &[u8], register: u8) -> bool
    ensures { result ≡ is_among register registers.now }
{
    for named in registers {
        if *named == register {
            return true;
        }
    }
    false
}

/// The bit of a register, or none.
fn bit(register: u8, holds: bool) -> u16
    requires { register < REGISTERS }
    ensures { result ≡ (if holds then 2 ^ register else 0) }
{
    if holds { 1 << register } else { 0 }
}
