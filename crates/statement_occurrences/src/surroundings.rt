//! What is known where a statement is met.
use hl_base::{Name, PathId};
use statement_listing::Listing;
use trace_values::TraceItem;
use variable_meanings::CallVariables;

/// What is known where a statement is met.
#[derive(Drop)]
pub struct Surroundings<'a> {
    /// The list that is run there: open code, the statements of a definition, or a member that is copied.
    pub list: Option<&'a Listing>,

    /// What variable symbols mean in its call before it.
    pub call: &'a CallVariables,

    /// What is kept of it.
    pub item: &'a TraceItem,

    /// The symbol that its label defines first of all.
    pub first: &'a Option<Name>,

    /// The file of the member that it copies.
    pub member: Option<PathId>,
}
