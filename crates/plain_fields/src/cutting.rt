//! A field without apostrophes as far as it is cut, byte by byte.
ghost use Rattle.std.specs.Prelude.{◌≡◌, ◌==◌, ◌&&◌, ℕ, List, [], ◌∷◌, ◌++◌, ◌+◌, drop, take, false, IfOk, OnOk};
ghost use Rattle.std.specs.Str.{chars, IsAscii};
ghost use Rattle.plain_fields.specs.Cutting.{IsBehind, depth_behind, left_of, part_of};
ghost use Rattle.operand_list.specs.Split.{whole_parts};

use crate::state::Cutting;
use hl_base::{OutOfMemory, Text};
use operand_list::Operands;
use std::alloc::Global;

/// How many parentheses are open behind a character.
#[inline(always)]
fn depth_behind(depth: u32, byte: u8) -> Result<u32, OutOfMemory>
    ensures { IfOk result (λ behind. behind ≡ depth_behind depth byte) }
{
    match byte {
        b'(' => depth.checked_add(1).ok_or(OutOfMemory),
        b')' => Ok(depth.saturating_sub(1)),
        _ => Ok(depth),
    }
}

/// Whether a character is a comma outside parentheses, where so many are open.
#[inline(always)]
fn separates(depth: u32, byte: u8) -> bool
    ensures { result ≡ ((byte == 44) && (depth == 0)) }
{
    byte == b',' && depth == 0
}

/// So many characters at the front of an ASCII text, and what is behind them.
#[inline(always)]
fn cut_at(text: &str, count: usize) -> (&str, &str)
    requires { IsAscii text.now }
    ensures front { chars result.0.now ≡ take count (chars text.now) }
    ensures back { chars result.1.now ≡ drop count (chars text.now) }
    ensures ascii { IsAscii result.1.now }
{
    let end = count.min(text.len());
    text.split_at(end)
}

/// One more than so many.
#[inline(always)]
fn one_more(count: usize) -> Result<usize, OutOfMemory>
    ensures { IfOk result (λ more. more ≡ count + 1) }
{
    count.checked_add(1).ok_or(OutOfMemory)
}

impl<'a> Cutting<'a> {
    pub(crate) fn new(alloc: Global, text: &'a str) -> Cutting<'a>
        requires { IsAscii text.now }
        ensures none { result.done ≡ [] }
        ensures from { result.from.now ≡ text.now }
        ensures count { result.count ≡ 0 }
        ensures depth { result.depth ≡ 0 }
    {
        Cutting {
            done: Operands::new(alloc),
            from: text,
            count: 0,
            depth: 0,
        }
    }

    /// Reads the next character.
    #[inline(always)]
    pub(crate) fn read(&mut self, alloc: Global, byte: u8) -> Result<(), OutOfMemory>
        ensures { OnOk result ((before left : List ℕ) → IsBehind self.old.depth before → left_of self.old ≡ byte ∷ left → (byte == 39) ≡ false
            → IsBehind self.new.depth (byte ∷ before)
            × (left_of self.new ≡ left)
            × ((rest : List ℕ) → whole_parts 0 self.new.done (part_of self.new) (byte ∷ before) rest
            ≡ whole_parts 0 self.old.done (part_of self.old) before (byte ∷ rest))) }
    {
        if separates(self.depth, byte) {
            self.cut(alloc)?;
            return Ok(());
        }
        let count = one_more(self.count)?;
        self.depth = depth_behind(self.depth, byte)?;
        self.count = count;
        Ok(())
    }

    /// Ends the text that is read on before the next character, and begins another behind it.
    #[inline(never)]
    fn cut(&mut self, alloc: Global) -> Result<(), OutOfMemory>
        ensures depth { self.new.depth ≡ self.old.depth }
        ensures done { OnOk result (self.new.done ≡ self.old.done ++ part_of self.old ∷ []) }
        ensures count { OnOk result (self.new.count ≡ 0) }
        ensures from { OnOk result (chars self.new.from.now ≡ drop 1 (left_of self.old)) }
    {
        let (part, left) = cut_at(self.from, self.count);
        self.done.push(Text::of(alloc, part)?)?;
        self.from = cut_at(left, 1).1;
        self.count = 0;
        Ok(())
    }

    /// The texts, with all that is left as the last one.
    pub(crate) fn close(self, alloc: Global) -> Result<Operands, OutOfMemory>
        ensures { IfOk result (λ s. s ≡ self.entry.done ++ chars self.entry.from.now ∷ []) }
    {
        let mut done = self.done;
        done.push(Text::of(alloc, self.from)?)?;
        Ok(done)
    }
}
