//! Statements, and how they are read from a text.
ghost use Rattle.std.specs.Prelude.{◌≡◌, List, [], ◌∷◌, ◌++◌, IfOk, OnOk, OnErr};
ghost use Rattle.std.specs.Str.{chars};
ghost use Rattle.hlasm_statements.specs.Statements.{statements_of};

use crate::Faults;
use crate::build::{count_on, push_line, push_lines};
use crate::column::{begins_marked, split_columns};
use crate::places::Places;
use hl_base::{OutOfMemory, Text, lines};
use std::alloc::Global;
use std::marker::Model;

/// How many columns of a line have text; the next one has the mark.
const TEXT_COLUMNS: usize = 71;

/// How many bytes a line of a usual text has, with its end: no statement is moved while the statements of one are read.
const LINE_WIDTH: usize = 81;

/// What kind of statement some lines are.
#[derive(Clone, Copy, Debug, PartialEq, Eq)]
pub enum Shape {
    Plain,
    /// `*` stands in column 1.
    Comment,
    /// `.*` stands in columns 1 and 2.
    InnerComment,
    /// All that is read of it is blank.
    Blank,
}

/// A field of a statement.
#[derive(Clone, Copy, Debug, PartialEq, Eq)]
pub enum Field {
    Label,
    Op,
    Operands,
}

/// A statement of a text. Its lines count from 0; a field is empty where the statement has none, and in comments and
/// blank statements.
#[derive(Drop)]
pub struct Statement {
    pub first: u32,
    pub last: u32,
    pub shape: Shape,
    pub faults: Faults,
    pub label: Text,
    pub op: Text,
    pub operands: Text,
    /// Where the characters of each field stand; `place` answers from them.
    pub(crate) label_places: Places,
    pub(crate) op_places: Places,
    pub(crate) operand_places: Places,
}

impl Statement {
    ghost use Rattle.std.specs.Prelude.{slice_index_or, length, ◌<◌};
    ghost use Rattle.hlasm_statements.specs.Statements.{places};

    /// Where a character of a field stands: its line, from 0, and its column, from 1. The index counts the characters of
    /// the field from 0; past its last one the answer is of no use.
    pub fn place(&self, field: Field, index: u32) -> (u32, u32)
        ensures { index < length (places self.now field) → result ≡ slice_index_or (places self.now field) index result }
    {
        match field {
            Field::Label => self.label_places.at(index),
            Field::Op => self.op_places.at(index),
            Field::Operands => self.operand_places.at(index),
        }
    }
}

/// Statements in order. Contracts see the list.
#[derive(Drop)]
pub struct Statements {
    statements: Vec<Statement>,
}

impl Model for Statements {
    ghost use Rattle.std.specs.Prelude.{List};
    ghost use Rattle.hlasm_statements.specs.declared.statement.Statement.{Statement};

    ghost Value = { List Statement };

    ghost view = { λ s. s.statements.items };
}

impl Statements {
    /// No statement.
    pub fn new(alloc: Global) -> Statements
        ensures { result ≡ [] }
    {
        Statements {
            statements: Vec::new(alloc),
        }
    }

    /// No statement, with room for so many.
    fn with_room(alloc: Global, count: usize) -> Result<Statements, OutOfMemory>
        ensures { IfOk result (λ s. s ≡ []) }
    {
        Ok(Statements {
            statements: Vec::with_capacity(alloc, count)?,
        })
    }

    /// Adds a statement behind those that are there. An `Err` changes nothing.
    pub fn push(&mut self, statement: Statement) -> Result<(), OutOfMemory>
        ensures ok { OnOk result (self.new ≡ self.old ++ statement ∷ []) }
        ensures err { OnErr result (self.new ≡ self.old) }
    {
        self.statements.push(statement)?;
        Ok(())
    }

    /// The statements in order.
    pub fn as_slice(&self) -> &[Statement]
        ensures { result.now ≡ self.now }
    {
        self.statements.as_slice()
    }
}

/// The statements of a text, in order. `OutOfMemory` also where the text has more lines than a `u32` counts.
pub fn read_statements(alloc: Global, text: &str) -> Result<Statements, OutOfMemory>
    ensures { IfOk result (λ s. s ≡ statements_of (chars text.now)) }
{
    let mut statements = Statements::with_room(alloc, text.len() / LINE_WIDTH + 1)?;
    let mut number = 0;
    let mut bodies = Vec::new(alloc);
    for line in lines(text) {
        let (body, behind) = split_columns(line, TEXT_COLUMNS);
        let is_marked = begins_marked(behind);
        if bodies.is_empty() && !is_marked {
            push_line(&mut statements, alloc, number, body)?;
            number = count_on(number, 1)?;
            continue;
        }
        bodies.push(body)?;
        if !is_marked {
            push_lines(&mut statements, alloc, number, bodies.as_slice(), false)?;
            number = count_on(number, bodies.len())?;
            bodies.clear();
        }
    }
    if bodies.is_empty() {
        return Ok(statements);
    }
    push_lines(&mut statements, alloc, number, bodies.as_slice(), true)?;
    Ok(statements)
}
