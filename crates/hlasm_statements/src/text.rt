//! Texts, character by character, for those who read fields.
ghost use Rattle.std.specs.Prelude.{◌≡◌, ◌==◌, [], ◌∷◌, length, take, drop, MatchOption};
ghost use Rattle.std.specs.Str.{chars};

use crate::column::split_columns;

/// How many characters a text has.
pub fn character_count(text: &str) -> usize
    ensures { result ≡ length (chars text.now) }
{
    text.chars().count()
}

/// The first character of a text, and what is behind it.
pub fn head(text: &str) -> Option<(char, &str)>
    ensures { MatchOption result (chars text.now ≡ []) (λ p. chars text.now ≡ p.0 ∷ chars p.1.now) }
{
    let mut rest = text.chars();
    match rest.next() {
        Some(c) => Some((c, rest.as_str())),
        None => None,
    }
}

/// Whether a text has no character.
pub fn is_nothing(text: &str) -> bool
    ensures { result ≡ (length (chars text.now) == 0) }
{
    head(text).is_none()
}

/// What is behind so many characters of a text.
pub fn behind(text: &str, count: usize) -> &str
    ensures { chars result.now ≡ drop count (chars text.now) }
{
    split_columns(text, count).1
}

/// So many characters at the front of a text, or all of it.
pub fn before(text: &str, count: usize) -> &str
    ensures { chars result.now ≡ take count (chars text.now) }
{
    split_columns(text, count).0
}
