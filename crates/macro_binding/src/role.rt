//! What a parameter stands for.
use hl_base::Text;

/// What a parameter stands for in a call (SC26-4940, "Positional parameters", "Keyword parameters").
#[derive(Drop)]
pub enum Role {
    /// The name entry.
    NameEntry,
    /// The positional operand of this place, counted from 0.
    Positional(u32),
    /// The value given to the keyword that the parameter is called, or this default.
    Keyword(Text),
}
