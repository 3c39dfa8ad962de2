//! What is known of a symbol.
use trace_values::Reloc;

/// The value and the length of a symbol that has a value.
#[derive(Clone, Copy, Debug, PartialEq, Eq)]
pub struct Known {
    pub value: Reloc,
    pub length: u32,
}
