//! What changes of what a call knows.
use hl_base::{Declarations, Name, SetValue};

/// What a statement changes: nothing; a local SET symbol, or an element of one, gets a value; SET symbols are declared; so
/// many branches are left; or one less.
#[derive(Drop)]
pub enum Change {
    Nothing,
    Hold(Name, Option<u32>, SetValue),
    Declare(Declarations),
    Limit(u32),
    Branch,
}
