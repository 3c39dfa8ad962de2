//! What is read of a field that is cut on.
ghost use Rattle.std.specs.Str.{IsAscii};

use operand_list::Operands;

/// The operands so far, what is left of the field from the beginning of the one that is read on, how many characters of this are
/// read, and how many parentheses are open. Each character is a byte.
#[derive(Drop)]
pub(crate) struct Cutting<'a> {
    pub(crate) done: Operands,
    pub(crate) from: &'a str,
    pub(crate) count: usize,
    pub(crate) depth: u32,
    ghost ascii: { IsAscii from.now },
}
