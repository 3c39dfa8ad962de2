//! Answers as kept values.
ghost use Rattle.std.specs.Prelude.{◌≡◌, ◌↔◌, ℕ, IfOk, IsTrue};
ghost use Rattle.hl_base.specs.declared.set.Answer.TheVariants.{Number, Bit, Chars, File, Meaning};
ghost use Rattle.kept_values.specs.Trees.{tree_number, number_from, mixed};
ghost use Rattle.kept_values.specs.Answers.{answer_tree};
ghost use Rattle.kept_values.specs.Lists.{bit_tree, integer_tree};

use crate::Kept;
use crate::number::{mixed, text_number};
use crate::text::same_text;
use hl_base::{Answer, Attr, OutOfMemory, PathId, Text, TextId};
use std::alloc::Global;

fn is_number(answer: &Answer, number: i32) -> bool
    ensures { IsTrue result ↔ (answer.now ≡ Number number) }
{
    match answer {
        Answer::Number(its_number) => *its_number == number,
        _ => false,
    }
}

fn is_bit(answer: &Answer, bit: bool) -> bool
    ensures { IsTrue result ↔ (answer.now ≡ Bit bit) }
{
    match answer {
        Answer::Bit(its_bit) => *its_bit == bit,
        _ => false,
    }
}

fn is_chars(answer: &Answer, text: &Text) -> bool
    ensures { IsTrue result ↔ (answer.now ≡ Chars text.now) }
{
    match answer {
        Answer::Chars(its_text) => same_text(its_text, text),
        _ => false,
    }
}

fn is_file(answer: &Answer, path: PathId, text: TextId) -> bool
    ensures { IsTrue result ↔ (answer.now ≡ File path text) }
{
    match answer {
        Answer::File(its_path, its_text) => its_path.0 == path.0 && its_text.0 == text.0,
        _ => false,
    }
}

fn is_meaning(answer: &Answer, meaning: Attr) -> bool
    ensures { IsTrue result ↔ (answer.now ≡ Meaning meaning) }
{
    match answer {
        Answer::Meaning(its_meaning) => its_meaning.letter == meaning.letter
            && its_meaning.length == meaning.length,
        _ => false,
    }
}

/// Whether two answers are one.
fn same_answer(one: &Answer, other: &Answer) -> bool
    ensures { IsTrue result ↔ (one.now ≡ other.now) }
{
    match one {
        Answer::Nothing => matches!(other, Answer::Nothing),
        Answer::Number(number) => is_number(other, *number),
        Answer::Bit(bit) => is_bit(other, *bit),
        Answer::Chars(text) => is_chars(other, text),
        Answer::Defined => matches!(other, Answer::Defined),
        Answer::File(path, text) => is_file(other, *path, *text),
        Answer::Unreadable => matches!(other, Answer::Unreadable),
        Answer::Meaning(meaning) => is_meaning(other, *meaning),
    }
}

fn bit_number(start: u64, bit: bool) -> u64
    ensures { result ≡ number_from start (bit_tree bit) }
{
    if bit {
        mixed(start, 1)
    } else {
        mixed(start, 0)
    }
}

/// The number of an integer behind what stands before it. A negative one counts from -1 downward.
fn integer_number(start: u64, number: i32) -> u64
    ensures { result ≡ number_from start (integer_tree number) }
{
    if number < 0 {
        mixed(mixed(start, 1), (-1 - i64::from(number)) as u64)
    } else {
        mixed(mixed(start, 0), number as u64)
    }
}

impl Kept for Answer {
    ghost code = { answer_tree };

    ghost number_of = { tree_number };

    fn same(&self, other: &Self) -> bool {
        same_answer(self, other)
    }

    fn number(&self) -> u64 {
        match self {
            Answer::Nothing => mixed(0, 0),
            Answer::Number(number) => integer_number(mixed(0, 1), *number),
            Answer::Bit(bit) => bit_number(mixed(0, 2), *bit),
            Answer::Chars(text) => text_number(mixed(0, 3), text.as_str()),
            Answer::Defined => mixed(0, 4),
            Answer::File(path, text) => mixed(
                mixed(mixed(0, 5), u64::from(path.0)),
                u64::from(text.0),
            ),
            Answer::Unreadable => mixed(0, 6),
            Answer::Meaning(meaning) => mixed(
                mixed(mixed(0, 7), u64::from(meaning.letter)),
                u64::from(meaning.length),
            ),
        }
    }

    fn copy(&self, alloc: Global) -> Result<Self, OutOfMemory> {
        Answer::copy(self, alloc)
    }
}
