//! Places of faults.
ghost use Rattle.std.specs.Prelude.{ℕ, ◌+◌};
ghost use Rattle.conditional_fields.specs.Answers.{IsPlaced, IsWant};

use operand_grammar::SyntaxFault;

/// A fault at the sum of two places. Want of memory where a `u32` does not count it.
pub fn fault_at(before: usize, more: usize) -> SyntaxFault
    ensures { IsPlaced (before + more) result }
{
    let Some(at) = before.checked_add(more) else {
        return SyntaxFault::OutOfMemory;
    };
    match u32::try_from(at) {
        Ok(at) => SyntaxFault::At(at),
        Err(_) => SyntaxFault::OutOfMemory,
    }
}

/// The same fault so many characters further on.
pub(crate) fn further(fault: SyntaxFault, by: usize) -> SyntaxFault
    ensures place { (place : ℕ) → IsPlaced place fault → IsPlaced (place + by) result }
    ensures want { IsWant fault → IsWant result }
{
    match fault {
        SyntaxFault::At(at) => fault_at(at as usize, by),
        SyntaxFault::OutOfMemory => SyntaxFault::OutOfMemory,
    }
}
