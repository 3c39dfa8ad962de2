//! What is said of a statement.
use hl_base::{Declarations, Line, Name, Notes, Origin};
use trace_values::Settings;

/// What is said of a statement: its notes, the sequence symbol that it branches to, where the prototype of the macro stands that
/// it calls, the local SET symbols that it set, the SET symbols that it declared, the global SET symbols that it set, and the
/// statement that it generated.
#[derive(Drop)]
pub struct Said {
    pub notes: Notes,
    pub target: Option<Name>,
    pub called: Option<Origin>,
    pub locals: Settings,
    pub declared: Declarations,
    pub globals: Settings,
    pub line: Option<Line>,
}
