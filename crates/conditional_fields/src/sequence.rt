//! Sequence symbols (SC26-4940, "Sequence symbols").
ghost use Rattle.std.specs.Prelude.{◌≡◌, ◌≤◌};
ghost use Rattle.std.specs.Str.{chars};
ghost use Rattle.conditional_fields.specs.Answers.{Says};
ghost use Rattle.conditional_fields.specs.Sequences as sequences;

use crate::character::{begins_with_letter, head, letter_count, name_of};
use expression_grammar::spelled::LONGEST;
use hl_base::Name;
use operand_grammar::SyntaxFault;

/// How many characters of a text some ordinary symbol begins with.
pub fn symbol_reach(text: &str) -> u32
    ensures value { result ≡ sequences.symbol_reach (chars text.now) }
    ensures short { result ≤ LONGEST }
{
    if begins_with_letter(text) {
        return LONGEST.min(letter_count(text)) as u32;
    }
    0
}

/// The name of a sequence symbol. `At` where a text is none: how many characters of it some sequence symbol begins with.
pub(crate) fn sequence(text: &str) -> Result<Name, SyntaxFault>
    ensures { Says (λ name. name) (sequences.sequence (chars text.now)) result }
{
    match head(text) {
        Some((c, rest)) => {
            if c != '.' {
                return Err(SyntaxFault::At(0));
            }
            match name_of(rest) {
                Some(name) => Ok(name),
                None => Err(SyntaxFault::At(symbol_reach(rest) + 1)),
            }
        }
        None => Err(SyntaxFault::At(0)),
    }
}
