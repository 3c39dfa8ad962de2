//! What an evaluation asks of its surroundings.
ghost use Rattle.std.specs.Prelude.{◌≡◌, IfOk};
ghost use Rattle.std.specs.Option.{option_copied};
ghost use Rattle.cond_expr.specs.Told.{Told};

use hl_base::{Answer, Key, Name, OutOfMemory, SetValue, Text};
use std::alloc::Global;

/// What a variable symbol stands for: the value of a SET symbol; the text of a parameter or a system variable; the code
/// of the note that says why there is none (20 where it means nothing here, 22 where its subscript is out of range); or
/// the key whose answer is its value and was not given yet.
#[derive(Drop)]
pub enum Found {
    Value(SetValue),
    Parameter(Text),
    Fault(u16),
    Ask(Key),
}

/// The surroundings of an expression, which an evaluation only reads.
pub trait Lookups {
    ghost told: { Self → Told };

    /// What a variable symbol with these subscripts stands for.
    fn variable(&self, alloc: Global, name: &Name, subscripts: &[i32]) -> Result<Found, OutOfMemory>
        ensures { IfOk result (λ found. found ≡ (told self.now).variable name.now subscripts.now) };

    /// How many positional operands the macro call has.
    fn positionals(&self) -> u32
        ensures { result ≡ (told self.now).positionals };

    /// The answer to a key; `None` exactly where it was not given yet.
    fn answer(&self, key: &Key) -> Option<&Answer>
        ensures { option_copied result ≡ (told self.now).answer key.now };
}
