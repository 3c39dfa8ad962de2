//! Operands, and how a field is split into them.
ghost use Rattle.std.specs.Prelude.{◌≡◌, ◌==◌, ℕ, List, [], ◌∷◌, ◌++◌, ◌+◌, drop, IfOk, OnOk, OnErr};
ghost use Rattle.std.specs.Str.{chars};
ghost use Rattle.hl_base.specs.Quoting.{IsBehind, depth};
ghost use Rattle.operand_list.specs.Split as spec;

use hl_base::{Nesting, OutOfMemory, Text};
use hlasm_statements::split_columns;
use std::alloc::Global;
use std::marker::Model;

/// Operands in order, or the elements of a sublist. Contracts see the list of their texts.
#[derive(Drop)]
pub struct Operands {
    texts: Vec<Text>,
}

impl Model for Operands {
    ghost use Rattle.std.specs.Prelude.{ℕ, List};

    ghost Value = { List (List ℕ) };

    ghost view = { λ s. s.texts.items };
}

impl Operands {
    /// No operand.
    pub fn new(alloc: Global) -> Operands
        ensures { result ≡ [] }
    {
        Operands {
            texts: Vec::new(alloc),
        }
    }

    /// Adds an operand behind those that are there. An `Err` changes nothing.
    pub fn push(&mut self, operand: Text) -> Result<(), OutOfMemory>
        ensures ok { OnOk result (self.new ≡ self.old ++ operand ∷ []) }
        ensures err { OnErr result (self.new ≡ self.old) }
    {
        self.texts.push(operand)?;
        Ok(())
    }

    /// The operands in order.
    pub fn as_slice(&self) -> &[Text]
        ensures { result.now ≡ self.now }
    {
        self.texts.as_slice()
    }

    /// Another list of the same operands.
    pub fn copy(&self, alloc: Global) -> Result<Operands, OutOfMemory>
        ensures { IfOk result (λ s. s ≡ self.now) }
    {
        let mut copy = Operands::new(alloc);
        for text in self.as_slice() {
            copy.push(text.copy(alloc)?)?;
        }
        Ok(copy)
    }
}

/// The texts between the commas so far, what is left of the field from the beginning of the one that is read on, how many
/// characters of this are read, and how the next one stands.
#[derive(Drop)]
pub struct Parting<'a> {
    done: Operands,
    from: &'a str,
    count: usize,
    nesting: Nesting,
}

impl<'a> Parting<'a> {
    ghost use Rattle.operand_list.specs.Split.{left_of, part_of, whole_parts};

    pub fn new(alloc: Global, text: &'a str) -> Parting<'a>
        ensures behind { IsBehind result.nesting [] }
        ensures none { result.done ≡ [] }
        ensures count { result.count ≡ 0 }
        ensures from { result.from.now ≡ text.now }
    {
        Parting {
            done: Operands::new(alloc),
            from: text,
            count: 0,
            nesting: Nesting::new(),
        }
    }

    /// Reads the next character, where the commas in so many parentheses separate.
    pub fn read(&mut self, alloc: Global, level: u32, c: char) -> Result<(), OutOfMemory>
        ensures { OnOk result ((before left : List ℕ) → IsBehind self.old.nesting before → left_of self.old ≡ c ∷ left
            → IsBehind self.new.nesting (c ∷ before)
            × (left_of self.new ≡ left)
            × ((rest : List ℕ) → whole_parts level self.new.done (part_of self.new) (c ∷ before) rest
            ≡ whole_parts level self.old.done (part_of self.old) before (c ∷ rest))) }
    {
        let separates = is_separator(self.nesting, level, c);
        self.nesting.read(c)?;
        if separates {
            self.cut(alloc)?;
            return Ok(());
        }
        let count = one_more(self.count)?;
        self.count = count;
        Ok(())
    }

    /// Ends the text that is read on before the next character, and begins another behind it.
    fn cut(&mut self, alloc: Global) -> Result<(), OutOfMemory>
        ensures nesting { self.new.nesting ≡ self.old.nesting }
        ensures done { OnOk result (self.new.done ≡ self.old.done ++ part_of self.old ∷ []) }
        ensures count { OnOk result (self.new.count ≡ 0) }
        ensures from { OnOk result (chars self.new.from.now ≡ drop 1 (left_of self.old)) }
    {
        let (part, left) = split_columns(self.from, self.count);
        self.done.push(Text::of(alloc, part)?)?;
        self.from = split_columns(left, 1).1;
        self.count = 0;
        Ok(())
    }

    /// Reads a character that belongs to no text, and begins one behind it.
    pub fn open(&mut self, c: char) -> Result<(), OutOfMemory>
        ensures done { self.new.done ≡ self.old.done }
        ensures count { OnOk result (self.new.count ≡ 0) }
        ensures from { OnOk result (chars self.new.from.now ≡ drop 1 (chars self.old.from.now)) }
        ensures behind { OnOk result ((before : List ℕ) → IsBehind self.old.nesting before → IsBehind self.new.nesting (c ∷ before)) }
    {
        self.nesting.read(c)?;
        self.from = split_columns(self.from, 1).1;
        self.count = 0;
        Ok(())
    }

    /// Whether no parenthesis is open behind the next character.
    pub fn closes(&self, c: char) -> Result<bool, OutOfMemory>
        ensures { IfOk result (λ yes. (before : List ℕ) → IsBehind self.now.nesting before → yes ≡ (depth (c ∷ before) == 0)) }
    {
        let mut nesting = self.nesting;
        nesting.read(c)?;
        Ok(nesting.depth() == 0)
    }

    /// The texts, with the one that was read last.
    pub fn close(self, alloc: Global) -> Result<Operands, OutOfMemory>
        ensures { IfOk result (λ s. s ≡ self.entry.done ++ part_of self.entry ∷ []) }
    {
        let mut done = self.done;
        done.push(Text::of(alloc, split_columns(self.from, self.count).0)?)?;
        Ok(done)
    }
}

/// One more than so many.
fn one_more(count: usize) -> Result<usize, OutOfMemory>
    ensures { IfOk result (λ more. more ≡ count + 1) }
{
    count.checked_add(1).ok_or(OutOfMemory)
}

fn is_separator(nesting: Nesting, level: u32, c: char) -> bool
    ensures { (before : List ℕ) → IsBehind nesting before → result ≡ spec.is_separator level c before }
{
    c == ',' && nesting.depth() == level && !nesting.is_quoted(c)
}

/// The operands of a field: what stands between its commas outside quotes and parentheses. The empty text has none, and
/// an operand may be empty (SC26-4940, "Operand entry").
pub fn split_operands(alloc: Global, text: &str) -> Result<Operands, OutOfMemory>
    ensures { IfOk result (λ s. s ≡ spec.operands_of (chars text.now)) }
{
    let mut parting = Parting::new(alloc, text);
    if text.is_empty() {
        return Ok(parting.done);
    }
    for c in text.chars() {
        parting.read(alloc, 0, c)?;
    }
    parting.close(alloc)
}
