//! What a statement does.
use hl_base::{Declarations, Key, Line, Name, Notes, SetValue};

/// What a statement does, and who does it is its caller: nothing here changes anything.
#[derive(Drop)]
pub enum Act {
    /// Nothing but that the next statement follows.
    Next,
    /// An answer is needed that was not given.
    Ask(Key),
    /// The first statement follows that has this sequence symbol.
    Branch(Name),
    /// So many branches are left.
    Actr(i32),
    /// A SET symbol, or its element, gets a value.
    Set(Name, Option<u32>, SetValue),
    Declare(Declarations),
    /// A macro definition begins.
    Define,
    Call(Name),
    Copy(Name),
    Generate(Line),
    /// The macro ends, by the operation of this name.
    Leave(Name),
    /// All ends. END is generated as this line; as none, if its fields cannot be read.
    End(Option<Line>),
}

/// What a statement does, and its notes, with an empty stack.
#[derive(Drop)]
pub struct Effect {
    pub act: Act,
    pub notes: Notes,
}
