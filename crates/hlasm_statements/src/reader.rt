//! The fields of a statement, read in words from its source.
ghost use Rattle.std.specs.Prelude.{◌≡◌, ◌<◌, ◌≤◌, ◌++◌, ◌&&◌, ◌==◌, ℕ, Bool, false, List, [], IfOk, IfSome, IsTrue, length, take, drop, OnOk};
ghost use Rattle.std.specs.List.{list_all};
ghost use Rattle.std.specs.Str.{chars};
ghost use Rattle.hl_base.specs.Quoting.{IsBehind};
ghost use Rattle.hlasm_statements.specs.Columns as columns;
ghost use Rattle.hlasm_statements.specs.Fields as fields;
ghost use Rattle.hlasm_statements.specs.Places.{side_by_side};
ghost use Rattle.hlasm_statements.specs.Reading as reading;
ghost use Rattle.hlasm_statements.specs.Reading.{IsFrontField};

use crate::build::count_on;
use crate::column::{Front, front_blanks, front_word, is_blank, split_columns};
use crate::front_field::{FrontField, front_field};
use crate::places::Places;
use hl_base::{Nesting, OutOfMemory, Text};
use std::alloc::Global;

/// How far the fields of a statement are read.
#[derive(Clone, Copy, Debug, PartialEq, Eq)]
pub enum Stage {
    Label,
    /// Between the name entry and the operation.
    Gap,
    Operation,
    /// Between the operation and the operands.
    OperandGap,
    Operands,
    /// Remarks in this line, behind a comma of the operands.
    Remarks(u32),
    /// Behind the operands.
    Done,
}

/// The fields of a statement, as far as they are read.
#[derive(Drop)]
pub struct Reader {
    stage: Stage,
    nesting: Nesting,
    ends_in_comma: bool,
    pub label: Text,
    pub op: Text,
    pub operands: Text,
    pub label_places: Places,
    pub op_places: Places,
    pub operand_places: Places,
}

/// The characters up to a blank that ends the operand field, and what they leave.
#[derive(Clone, Copy)]
struct Scan {
    count: usize,
    /// Whether there is such a blank.
    is_ended: bool,
    nesting: Nesting,
    ends_in_comma: bool,
}

/// Adds characters, which stand side by side in so many columns of a line, behind a field. What an `Err` leaves is of no use.
#[inline(always)]
fn add(
    field: &mut Text,
    places: &mut Places,
    text: &str,
    count: usize,
    line: u32,
    column: u32,
) -> Result<(), OutOfMemory>
    ensures text { OnOk result (field.new ≡ field.old ++ chars text.now) }
    ensures places { OnOk result (places.new ≡ places.old ++ side_by_side line column count) }
{
    field.push_str(text)?;
    let count = count_on(0, count)?;
    places.push(line, column, count)?;
    Ok(())
}

/// Whether blanks within parentheses belong to the operands of this operation.
fn keeps_groups(operation: &Text) -> bool
    ensures { result ≡ fields.keeps_groups operation.now }
{
    let name = operation.as_str();
    name.eq_ignore_ascii_case("AIF")
        || name.eq_ignore_ascii_case("AGO")
        || name.eq_ignore_ascii_case("SETA")
        || name.eq_ignore_ascii_case("SETB")
        || name.eq_ignore_ascii_case("SETC")
}

/// The stage that blanks leave.
fn behind_blanks(stage: Stage) -> Stage
    ensures { result ≡ reading.stage_behind_blanks stage }
{
    match stage {
        Stage::Label => Stage::Gap,
        Stage::Operation => Stage::OperandGap,
        other => other,
    }
}

/// Whether a character of this kind stands before the operands.
fn precedes(stage: Stage, is_blank: bool) -> bool
    ensures { result ≡ reading.precedes stage is_blank }
{
    match stage {
        Stage::Label | Stage::Gap | Stage::Operation => true,
        Stage::OperandGap => is_blank,
        Stage::Operands | Stage::Remarks(_) | Stage::Done => false,
    }
}

impl Reader {
    ghost use Rattle.hlasm_statements.specs.Columns.{placed};
    ghost use Rattle.hlasm_statements.specs.Reading.{IsRead, ReadsOn, Scans, is_before_operands, is_past, stage_scanned};

    /// Nothing read so far.
    pub fn new(alloc: Global) -> Reader
        ensures { (alternate : Bool) → IsRead result alternate [] }
    {
        Reader {
            stage: Stage::Label,
            nesting: Nesting::new(),
            ends_in_comma: false,
            label: Text::new(alloc),
            op: Text::new(alloc),
            operands: Text::new(alloc),
            label_places: Places::new(alloc),
            op_places: Places::new(alloc),
            operand_places: Places::new(alloc),
        }
    }

    /// Whether neither name entry nor operation was met.
    pub fn is_blank(&self) -> bool
        ensures { result ≡ ((length self.now.label == 0) && (length self.now.op == 0)) }
    {
        self.label.is_empty() && self.op.is_empty()
    }

    /// Reads the next characters, which stand side by side in a line from a column on. What an `Err` leaves is of no use.
    pub fn read_part(
        &mut self,
        alternate: bool,
        part: &str,
        line: u32,
        column: u32,
    ) -> Result<(), OutOfMemory>
        ensures { OnOk result (ReadsOn self.old self.new alternate (placed line column (chars part.now))) }
    {
        let mut rest = part;
        let mut at = column;
        while self.is_before_operands(rest) {
            let front = self.read_run(rest, line, at)?;
            rest = front.behind;
            at = count_on(at, front.count)?;
        }
        self.read_operands(alternate, rest, line, at)
    }

    /// Whether a text begins before the operands.
    fn is_before_operands(&self, text: &str) -> bool
        ensures { result ≡ is_before_operands self.now.stage (chars text.now) }
    {
        match text.chars().next() {
            Some(c) => precedes(self.stage, is_blank(c)),
            None => false,
        }
    }

    /// Reads the blanks at the front of a text, or else what stands before its first blank.
    fn read_run<'a>(
        &mut self,
        text: &'a str,
        line: u32,
        column: u32,
    ) -> Result<Front<'a>, OutOfMemory>
        requires { IsTrue (is_before_operands self.old.stage (chars text.now)) }
        ensures some { IfOk result (λ front. 0 < front.count) }
        ensures fits { IfOk result (λ front. front.count ≤ length (chars text.now)) }
        ensures behind { IfOk result (λ front. chars front.behind.now ≡ drop front.count (chars text.now)) }
        ensures read { IfOk result (λ front. (alternate : Bool)
            → ReadsOn self.old self.new alternate (placed line column (take front.count (chars text.now)))) }
    {
        let blanks = front_blanks(text);
        if blanks.count > 0 {
            self.stage = behind_blanks(self.stage);
            return Ok(blanks);
        }
        let word = front_word(text);
        self.read_word(word.text, word.count, line, column)?;
        Ok(word)
    }

    /// Reads so many characters, of which none is a blank, in the name entry or the operation.
    fn read_word(
        &mut self,
        word: &str,
        count: usize,
        line: u32,
        column: u32,
    ) -> Result<(), OutOfMemory>
        requires count { count ≡ length (chars word.now) }
        requires some { 0 < count }
        requires ink { IsTrue (list_all columns.is_ink (chars word.now)) }
        requires before { IsTrue (reading.precedes self.old.stage false) }
        ensures { OnOk result ((alternate : Bool) → ReadsOn self.old self.new alternate (placed line column (chars word.now))) }
    {
        match self.stage {
            Stage::Label => add(
                &mut self.label,
                &mut self.label_places,
                word,
                count,
                line,
                column,
            )?,
            _ => {
                self.stage = Stage::Operation;
                add(&mut self.op, &mut self.op_places, word, count, line, column)?
            }
        }
        Ok(())
    }

    /// Reads the next characters, of which none stands before the operands.
    fn read_operands(
        &mut self,
        alternate: bool,
        part: &str,
        line: u32,
        column: u32,
    ) -> Result<(), OutOfMemory>
        requires { is_before_operands self.old.stage (chars part.now) ≡ false }
        ensures { OnOk result (ReadsOn self.old self.new alternate (placed line column (chars part.now))) }
    {
        if part.is_empty() {
            return Ok(());
        }
        if self.is_past(line) {
            return Ok(());
        }
        let (scan, field) = self.scan(alternate, part)?;
        self.stage = self.stage_scanned(alternate, &scan, line);
        self.nesting = scan.nesting;
        self.ends_in_comma = scan.ends_in_comma;
        add(
            &mut self.operands,
            &mut self.operand_places,
            field,
            scan.count,
            line,
            column,
        )?;
        Ok(())
    }

    /// Whether nothing more of this line is read.
    fn is_past(&self, line: u32) -> bool
        ensures { result ≡ is_past self.now.stage line }
    {
        match self.stage {
            Stage::Done => true,
            Stage::Remarks(remarks) => line == remarks,
            _ => false,
        }
    }

    /// How far the operand field goes in a text, where it is not past, and those characters.
    #[inline(always)]
    fn scan<'a>(&self, alternate: bool, text: &'a str) -> Result<(Scan, &'a str), OutOfMemory>
        ensures scan { IfOk result (λ found. Scans alternate self.now (chars text.now) found.0) }
        ensures field { IfOk result (λ found. chars found.1.now ≡ take found.0.count (chars text.now)) }
    {
        if let Some(front) = self.front_field(alternate, text) {
            let scan = Scan {
                count: front.count,
                is_ended: true,
                nesting: self.nesting,
                ends_in_comma: front.ends_in_comma,
            };
            let (field, _) = text.split_at(front.count);
            return Ok((scan, field));
        }
        let scan = self.scan_characters(text)?;
        let (field, _) = split_columns(text, scan.count);
        Ok((scan, field))
    }

    /// The operand field, where it begins and ends in a text and that is easy to see.
    #[inline(always)]
    fn front_field(&self, alternate: bool, text: &str) -> Option<FrontField>
        ensures begins { IfSome result (λ field. self.now.operands ≡ []) }
        ensures front { IfSome result (λ field. IsFrontField alternate (fields.keeps_groups self.now.op) text.now field) }
    {
        if !self.operands.is_empty() {
            return None;
        }
        front_field(text.as_bytes(), keeps_groups(&self.op), alternate)
    }

    /// How far it goes, character by character.
    fn scan_characters(&self, text: &str) -> Result<Scan, OutOfMemory>
        ensures { IfOk result (λ scan. (alternate : Bool) → Scans alternate self.now (chars text.now) scan) }
    {
        let mut nesting = self.nesting;
        let mut ends_in_comma = self.ends_in_comma;
        let mut count = 0usize;
        for c in text.chars() {
            if self.is_end(nesting, c) {
                return Ok(Scan {
                    count,
                    is_ended: true,
                    nesting,
                    ends_in_comma,
                });
            }
            nesting.read(c)?;
            ends_in_comma = c == ',';
            count = count.checked_add(1).ok_or(OutOfMemory)?;
        }
        Ok(Scan {
            count,
            is_ended: false,
            nesting,
            ends_in_comma,
        })
    }

    /// The stage behind characters of the operand field, and behind the blank that ends it.
    fn stage_scanned(&self, alternate: bool, scan: &Scan, line: u32) -> Stage
        ensures { result ≡ stage_scanned alternate self.now.stage scan.now line }
    {
        if scan.is_ended {
            if alternate && scan.ends_in_comma {
                Stage::Remarks(line)
            } else {
                Stage::Done
            }
        } else if scan.count > 0 {
            Stage::Operands
        } else {
            self.stage
        }
    }

    /// Whether a character is a blank that ends the operand field.
    fn is_end(&self, nesting: Nesting, c: char) -> bool
        ensures { (before : List ℕ) → IsBehind nesting before
            → result ≡ (columns.is_blank c && fields.ends_field (fields.keeps_groups self.now.op) c before) }
    {
        is_blank(c) && self.ends_field(nesting, c)
    }

    /// Whether a blank ends the operand field.
    fn ends_field(&self, nesting: Nesting, blank: char) -> bool
        ensures { (before : List ℕ) → IsBehind nesting before → result ≡ fields.ends_field (fields.keeps_groups self.now.op) blank before }
    {
        !(nesting.is_quoted(blank) || nesting.depth() > 0 && keeps_groups(&self.op))
    }
}
