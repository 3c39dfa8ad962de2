//! Why a text is not read as an expression.
use hl_base::OutOfMemory;
use thiserror::Error;

/// Why a text is not read as an expression.
#[derive(Clone, Copy, Debug, PartialEq, Eq, Error)]
pub enum SyntaxFault {
    /// The text is no expression, and this is the length of its longest prefix that some expression begins with, in
    /// characters.
    #[error("no expression goes on at character {0}")]
    At(u32),
    #[error("out of memory")]
    OutOfMemory,
}

impl From<OutOfMemory> for SyntaxFault {
    ghost use Rattle.std.specs.Prelude.{◌≡◌};
    ghost use Rattle.expression_grammar.specs.declared.fault.SyntaxFault.TheVariants as faults;

    ghost from_gives = { λ _ fault. fault ≡ faults.OutOfMemory };

    fn from(_refused: OutOfMemory) -> SyntaxFault {
        SyntaxFault::OutOfMemory
    }
}
