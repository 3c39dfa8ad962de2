//! Statements that an assembly generates, as text.
ghost use Rattle.std.specs.Prelude.{◌≡◌, [], ◌∷◌, ◌++◌, IfOk, OnOk, OnErr};

use hl_base::{Frames, Origin, OutOfMemory, Text};
use std::alloc::Global;
use std::marker::Model;

/// A generated statement: its fields, the place of the open-code statement that led to it, and the stack of the
/// statement that generated it, outermost first.
#[derive(Drop)]
pub struct Generated {
    pub label: Text,
    pub op: Text,
    pub operands: Text,
    pub origin: Origin,
    pub stack: Frames,
}

impl Generated {
    /// Another statement that says the same.
    pub fn copy(&self, alloc: Global) -> Result<Generated, OutOfMemory>
        ensures { IfOk result (λ g. g ≡ self.now) }
    {
        Ok(Generated {
            label: self.label.copy(alloc)?,
            op: self.op.copy(alloc)?,
            operands: self.operands.copy(alloc)?,
            origin: self.origin,
            stack: self.stack.copy(alloc)?,
        })
    }
}

/// Generated statements in order. Contracts see the list.
#[derive(Drop)]
pub struct GeneratedList {
    statements: Vec<Generated>,
}

impl Model for GeneratedList {
    ghost use Rattle.std.specs.Prelude.{List};
    ghost use Rattle.trace_values.specs.declared.generated.Generated.{Generated};

    ghost Value = { List Generated };

    ghost view = { λ s. s.statements.items };
}

impl GeneratedList {
    /// No statement.
    pub fn new(alloc: Global) -> GeneratedList
        ensures { result ≡ [] }
    {
        GeneratedList {
            statements: Vec::new(alloc),
        }
    }

    /// Adds a statement behind those that are there. An `Err` changes nothing.
    pub fn push(&mut self, statement: Generated) -> Result<(), OutOfMemory>
        ensures ok { OnOk result (self.new ≡ self.old ++ statement ∷ []) }
        ensures err { OnErr result (self.new ≡ self.old) }
    {
        self.statements.push(statement)?;
        Ok(())
    }

    /// The statements in order.
    pub fn as_slice(&self) -> &[Generated]
        ensures { result.now ≡ self.now }
    {
        self.statements.as_slice()
    }

    /// Another list of the same statements.
    pub fn copy(&self, alloc: Global) -> Result<GeneratedList, OutOfMemory>
        ensures { IfOk result (λ s. s ≡ self.now) }
    {
        let mut statements = Vec::with_capacity(alloc, self.statements.len())?;
        for statement in &self.statements {
            statements.push(statement.copy(alloc)?)?;
        }
        Ok(GeneratedList { statements })
    }
}
