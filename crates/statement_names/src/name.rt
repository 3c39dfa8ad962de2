//! Names as they stand in the fields of a statement.
ghost use Rattle.std.specs.Prelude.{◌≡◌, [], ◌∷◌, ◌++◌, OnOk, OnErr};
ghost use Rattle.statement_names.specs.Names as names;

use hl_base::{Name, OutOfMemory};
use hlasm_statements::Field;
use std::alloc::Global;
use std::marker::Model;

/// What a name is in its statement.
#[derive(Clone, Copy, Debug, PartialEq, Eq)]
pub enum NameKind {
    /// A variable symbol.
    Variable,
    /// An ordinary symbol in the operands.
    Symbol,
    /// The name entry, which is an ordinary symbol.
    Label,
    /// The name entry, which is a sequence symbol.
    SequenceLabel,
    /// A sequence symbol that AGO or AIF branches to.
    SequenceReference,
    /// The operation.
    Operation,
    /// The operand of COPY.
    Member,
}

/// A name as it is written: what it is, the field in which it stands, how many characters of the field stand before it, how
/// many it has, and its upper-cased letters and digits.
#[derive(Drop)]
pub struct WrittenName {
    pub kind: NameKind,
    pub field: Field,
    pub at: u32,
    pub count: u32,
    pub name: Name,
}

/// A name that a text begins with, and how many characters it has there.
#[derive(Drop)]
pub(crate) struct Named {
    pub(crate) kind: NameKind,
    pub(crate) count: u32,
    pub(crate) name: Name,
}

/// Names in order. Contracts see the list.
#[derive(Drop)]
pub struct WrittenNames {
    names: Vec<WrittenName>,
}

impl Model for WrittenNames {
    ghost use Rattle.std.specs.Prelude.{List};
    ghost use Rattle.statement_names.specs.declared.name.WrittenName.{WrittenName};

    ghost Value = { List WrittenName };

    ghost view = { λ s. s.names.items };
}

impl WrittenNames {
    /// No name.
    pub fn new(alloc: Global) -> WrittenNames
        ensures { result ≡ [] }
    {
        WrittenNames {
            names: Vec::new(alloc),
        }
    }

    /// Adds a name behind those that are there. An `Err` changes nothing.
    pub fn push(&mut self, name: WrittenName) -> Result<(), OutOfMemory>
        ensures ok { OnOk result (self.new ≡ self.old ++ name ∷ []) }
        ensures err { OnErr result (self.new ≡ self.old) }
    {
        self.names.push(name)?;
        Ok(())
    }

    /// The names in order.
    pub fn as_slice(&self) -> &[WrittenName]
        ensures { result.now ≡ self.now }
    {
        self.names.as_slice()
    }

    /// Adds a name that stands here in a field, if one does.
    pub(crate) fn push_at(
        &mut self,
        field: Field,
        at: u32,
        named: Option<Named>,
    ) -> Result<(), OutOfMemory>
        ensures { OnOk result (self.new ≡ self.old ++ names.stands field at named) }
    {
        match named {
            Some(named) => self.push(WrittenName {
                kind: named.kind,
                field,
                at,
                count: named.count,
                name: named.name,
            }),
            None => Ok(()),
        }
    }
}
