//! Where a statement stands.

use ordinary_symbols::Symbols;
use trace_values::Reloc;
use using_ranges::Ranges;

/// Where a statement stands, and what there is.
#[derive(Drop)]
pub struct Setting<'a> {
    /// All symbols, with their final values.
    pub symbols: &'a Symbols,
    /// The ranges in force.
    pub ranges: &'a Ranges,
    /// The value of `*`.
    pub here: Option<Reloc>,
}
