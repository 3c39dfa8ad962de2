//! What a variable symbol is.
ghost use Rattle.std.specs.Prelude.{◌≡◌};
ghost use Rattle.call_knowledge.specs.Knowledge as meanings;
ghost use Rattle.call_knowledge.specs.Views.{meaning_of};

use hl_base::Text;
use set_symbols::Declared;

/// What a variable symbol is: nothing here; a system variable symbol with its text; or a SET symbol without or with a
/// subscript.
#[derive(Drop)]
pub(crate) enum Meaning<'a> {
    Unknown,
    System(&'a Text),
    Scalar(Declared),
    Array(Declared),
}

impl Meaning<'_> {
    /// Whether it is anything.
    pub(crate) fn is_known(&self) -> bool
        ensures { result ≡ meanings.is_meaning (meaning_of self.now) }
    {
        match self {
            Meaning::Unknown => false,
            Meaning::System(_) | Meaning::Scalar(_) | Meaning::Array(_) => true,
        }
    }
}
