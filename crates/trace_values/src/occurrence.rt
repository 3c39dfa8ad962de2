//! Where names stand in the texts, and what each of them names.
ghost use Rattle.std.specs.Prelude.{◌≡◌, [], ◌∷◌, ◌++◌, IfOk, OnOk, OnErr};

use hl_base::{Name, Origin, OutOfMemory, PathId, SetKind};
use std::alloc::Global;
use std::marker::Model;

/// Where a variable or sequence symbol is known: in the program, in one macro definition, which the place of its
/// prototype names, or everywhere, as a global SET symbol of one type.
#[derive(Clone, Copy, Debug, PartialEq, Eq)]
pub enum Scope {
    Program,
    Definition(Origin),
    Global(SetKind),
}

/// What a variable symbol is. It is `Plain` for a global and for every other entity.
#[derive(Clone, Copy, Debug, PartialEq, Eq)]
pub enum Role {
    Plain,
    Parameter,
    Local(SetKind),
    System,
}

/// What a name in a text names. A macro is told by the place of its prototype, with its name.
#[derive(Drop)]
pub enum Entity {
    Symbol(Name),
    Variable(Scope, Name),
    Sequence(Scope, Name),
    Macro(Origin, Name),
    Member(PathId),
}

impl Entity {
    /// The same entity once more. It takes no memory.
    pub fn copy(&self) -> Entity
        ensures { result ≡ self.now }
    {
        match self {
            Entity::Symbol(name) => Entity::Symbol(name.copy()),
            Entity::Variable(scope, name) => Entity::Variable(*scope, name.copy()),
            Entity::Sequence(scope, name) => Entity::Sequence(*scope, name.copy()),
            Entity::Macro(origin, name) => Entity::Macro(*origin, name.copy()),
            Entity::Member(path) => Entity::Member(*path),
        }
    }
}

/// A name that stands in a line of a file, from one column to behind another, both counted from 0; whether it is
/// defined there.
#[derive(Drop)]
pub struct Occurrence {
    pub path: PathId,
    pub line: u32,
    pub from: u32,
    pub to: u32,
    pub entity: Entity,
    pub defines: bool,
    pub role: Role,
}

impl Occurrence {
    /// The same occurrence once more. It takes no memory.
    pub fn copy(&self) -> Occurrence
        ensures { result ≡ self.now }
    {
        Occurrence {
            path: self.path,
            line: self.line,
            from: self.from,
            to: self.to,
            entity: self.entity.copy(),
            defines: self.defines,
            role: self.role,
        }
    }
}

/// Occurrences in order. Contracts see the list.
#[derive(Drop)]
pub struct Occurrences {
    occurrences: Vec<Occurrence>,
}

impl Model for Occurrences {
    ghost use Rattle.std.specs.Prelude.{List};
    ghost use Rattle.trace_values.specs.declared.occurrence.Occurrence.{Occurrence};

    ghost Value = { List Occurrence };

    ghost view = { λ s. s.occurrences.items };
}

impl Occurrences {
    /// No occurrence.
    pub fn new(alloc: Global) -> Occurrences
        ensures { result ≡ [] }
    {
        Occurrences {
            occurrences: Vec::new(alloc),
        }
    }

    /// Adds an occurrence behind those that are there. An `Err` changes nothing.
    pub fn push(&mut self, occurrence: Occurrence) -> Result<(), OutOfMemory>
        ensures ok { OnOk result (self.new ≡ self.old ++ occurrence ∷ []) }
        ensures err { OnErr result (self.new ≡ self.old) }
    {
        self.occurrences.push(occurrence)?;
        Ok(())
    }

    /// The occurrences in order.
    pub fn as_slice(&self) -> &[Occurrence]
        ensures { result.now ≡ self.now }
    {
        self.occurrences.as_slice()
    }

    /// Another list of the same occurrences.
    pub fn copy(&self, alloc: Global) -> Result<Occurrences, OutOfMemory>
        ensures { IfOk result (λ s. s ≡ self.now) }
    {
        let mut occurrences = Vec::with_capacity(alloc, self.occurrences.len())?;
        for occurrence in &self.occurrences {
            occurrences.push(occurrence.copy())?;
        }
        Ok(Occurrences { occurrences })
    }
}
