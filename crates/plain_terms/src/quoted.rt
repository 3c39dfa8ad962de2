//! Self-defining terms between apostrophes that are all of a text: immediate values and masks are mostly some hexadecimal digits or
//! one character, and are read without the states of the reader of expressions.
ghost use Rattle.std.specs.Prelude.{◌≡◌, ◌==◌, ◌&&◌, ◌<◌, not, nat_lt, IfSome};
ghost use Rattle.expression_grammar.specs.Views.{tree_of};
ghost use Rattle.plain_terms.specs.Quoted as spec;

use expression_grammar::character::digit_value;
use expression_grammar::{Expr, Form};
use hl_base::ebcdic;

/// The number that hexadecimal digits write, if there are at most eight.
#[tactic(auto, using(crate::proofs::QuotedLaws::digits_next, crate::proofs::QuotedLaws::digits_end))]
fn hexadecimal(mut digits: &[u8]) -> Option<u32>
    ensures { IfSome result (λ bits. spec.IsHexadecimal digits.entry.now bits) }
{
    if digits.is_empty() || digits.len() > 8 {
        return None;
    }
    let mut bits: u32 = 0;
    while let [digit, rest @ ..] = digits {
        let value = digit_value(char::from(*digit));
        if value >= 16 || bits > 268_435_455 {
            return None;
        }
        bits = bits * 16 + value;
        digits = rest;
    }
    Some(bits)
}

/// Whether a byte is a character that is written once between apostrophes.
fn is_single(byte: u8) -> bool
    ensures { result ≡ spec.is_single byte }
{
    byte < 128 && byte != b'\'' && byte != b'&'
}

/// The number of a character that is alone between apostrophes.
fn character(inner: &[u8]) -> Option<u32>
    ensures { IfSome result (λ bits. spec.IsCharacter inner.now bits) }
{
    match inner {
        [byte] => {
            if is_single(*byte) {
                return Some(u32::from(ebcdic(char::from(*byte))));
            }
            None
        }
        _ => None,
    }
}

/// The term with this letter before its apostrophes, and this between them, if it is one.
fn term_of(letter: u8, inner: &[u8]) -> Option<Expr>
    ensures { IfSome result (λ tree. spec.IsTermOf letter inner.now (tree_of tree)) }
{
    match letter {
        b'X' | b'x' => match hexadecimal(inner) {
            Some(bits) => Some(Expr::Number(Form::Hexadecimal, bits)),
            None => None,
        },
        b'C' | b'c' => match character(inner) {
            Some(bits) => Some(Expr::Number(Form::Character, bits)),
            None => None,
        },
        _ => None,
    }
}

/// The term between apostrophes that a text is, if it is hexadecimal or has one character.
pub(crate) fn quoted_term(text: &str) -> Option<Expr>
    ensures { IfSome result (λ tree. spec.IsQuoted text.now (tree_of tree)) }
{
    match text.as_bytes() {
        [letter, b'\'', inner @ .., b'\''] => term_of(*letter, inner),
        _ => None,
    }
}
