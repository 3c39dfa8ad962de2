//! The type of a constant at the front of a text.
ghost use Rattle.std.specs.Prelude.{◌≡◌};
ghost use Rattle.std.specs.Str.{chars};
ghost use Rattle.constant_grammar.specs.Letters as letters;

use constant_table::ConstantType;
use operand_list::hlasm_statements::text::head;

/// A type, and how many letters spell it.
#[derive(Clone, Copy, Debug, PartialEq, Eq)]
pub(crate) struct Spelled {
    pub(crate) kind: ConstantType,
    pub(crate) count: usize,
}

/// A type, or the longer one that it becomes with the letter behind it.
fn lengthened(kind: ConstantType, rest: &str) -> Spelled
    ensures { result ≡ letters.lengthened kind (chars rest.now) }
{
    let single = Spelled { kind, count: 1 };
    match head(rest) {
        Some((letter, _)) => match kind.extended(letter) {
            Some(longer) => Spelled {
                kind: longer,
                count: 2,
            },
            None => single,
        },
        None => single,
    }
}

/// The type that a text begins with.
pub(crate) fn type_front(text: &str) -> Option<Spelled>
    ensures { result ≡ letters.spelled (chars text.now) }
{
    match head(text) {
        Some((letter, rest)) => match ConstantType::of_letter(letter) {
            Some(kind) => Some(lengthened(kind, rest)),
            None => None,
        },
        None => None,
    }
}
