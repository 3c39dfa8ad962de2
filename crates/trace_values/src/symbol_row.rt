//! What an assembly says of a symbol.
ghost use Rattle.std.specs.Prelude.{◌≡◌, [], ◌∷◌, ◌++◌, IfOk, OnOk, OnErr};

use crate::Reloc;
use hl_base::{Attr, Frames, Name, OutOfMemory};
use std::alloc::Global;
use std::marker::Model;

/// A symbol that is defined: its value, where it is known, its attributes, and the stack of the statement that defines
/// it, outermost first.
#[derive(Drop)]
pub struct SymbolRow {
    pub name: Name,
    pub value: Option<Reloc>,
    pub attr: Attr,
    pub stack: Frames,
}

impl SymbolRow {
    /// Another row that says the same.
    pub fn copy(&self, alloc: Global) -> Result<SymbolRow, OutOfMemory>
        ensures { IfOk result (λ r. r ≡ self.now) }
    {
        Ok(SymbolRow {
            name: self.name.copy(),
            value: self.value,
            attr: self.attr,
            stack: self.stack.copy(alloc)?,
        })
    }
}

/// Symbols in the order in which they are defined. Contracts see the list.
#[derive(Drop)]
pub struct SymbolRows {
    rows: Vec<SymbolRow>,
}

impl Model for SymbolRows {
    ghost use Rattle.std.specs.Prelude.{List};
    ghost use Rattle.trace_values.specs.declared.symbol_row.SymbolRow.{SymbolRow};

    ghost Value = { List SymbolRow };

    ghost view = { λ s. s.rows.items };
}

impl SymbolRows {
    /// No symbol.
    pub fn new(alloc: Global) -> SymbolRows
        ensures { result ≡ [] }
    {
        SymbolRows {
            rows: Vec::new(alloc),
        }
    }

    /// Adds a symbol behind those that are there. An `Err` changes nothing.
    pub fn push(&mut self, row: SymbolRow) -> Result<(), OutOfMemory>
        ensures ok { OnOk result (self.new ≡ self.old ++ row ∷ []) }
        ensures err { OnErr result (self.new ≡ self.old) }
    {
        self.rows.push(row)?;
        Ok(())
    }

    /// The symbols in order.
    pub fn as_slice(&self) -> &[SymbolRow]
        ensures { result.now ≡ self.now }
    {
        self.rows.as_slice()
    }

    /// Another list of the same symbols.
    pub fn copy(&self, alloc: Global) -> Result<SymbolRows, OutOfMemory>
        ensures { IfOk result (λ s. s ≡ self.now) }
    {
        let mut rows = Vec::with_capacity(alloc, self.rows.len())?;
        for row in &self.rows {
            rows.push(row.copy(alloc)?)?;
        }
        Ok(SymbolRows { rows })
    }
}
