//! Characters of a quoted text that stand for themselves: they are taken where the reader stands, and nothing is moved.
ghost use Rattle.std.specs.Prelude.{◌≡◌, [], ◌∷◌, ◌++◌, IfOk, if◌then◌else◌};
ghost use Rattle.expression_grammar.specs.Characters as characters;
ghost use Rattle.character_grammar.specs.TextViews as views;
ghost use Rattle.character_grammar.specs.TextViews.{Takes, text_state};

use crate::quoted::Characters;
use crate::text_point::TextPoint;
use hl_base::OutOfMemory;

/// Whether a character of a quoted text stands for itself alone.
#[tactic(auto, unfolding(expression_grammar::specs::Characters::kind_of))]
fn is_plain(c: char) -> bool
    ensures { result ≡ views.is_plain (characters.kind_of c) }
{
    !matches!(c, '\'' | '&')
}

/// Adds a character that stands for itself. Says whether it is one.
fn add_plain(plain: &mut Characters, c: char) -> Result<bool, OutOfMemory>
    ensures { IfOk result (λ taken. (taken ≡ views.is_plain (characters.kind_of c)) × (plain.new ≡ (if taken then plain.old ++ c ∷ [] else plain.old))) }
{
    if is_plain(c) {
        plain.push(c)?;
        return Ok(true);
    }
    Ok(false)
}

/// Takes a character of a quoted text that stands for itself. Says whether it is one. What an `Err` leaves is of no use.
#[tactic(auto, using(crate::proofs::TextMoveLaws::plain_takes))]
pub fn take_plain(point: &mut TextPoint, c: char) -> Result<bool, OutOfMemory>
    ensures { IfOk result (Takes (text_state point.old) c (text_state point.new)) }
{
    match point {
        TextPoint::Inside(_, _, plain) => {
            let taken = add_plain(plain, c)?;
            Ok(taken)
        }
        _ => Ok(false),
    }
}
