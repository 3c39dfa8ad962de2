//! Sections and values within them (HLASM Language Reference SC26-4940, "Program sectioning").
ghost use Rattle.std.specs.Prelude.{◌≡◌, [], ◌∷◌, ◌++◌, IfOk, OnOk, OnErr};

use hl_base::{Name, OutOfMemory};
use std::alloc::Global;
use std::marker::Model;

/// The number of a section: its place in the list of sections, counted from 0.
#[derive(Clone, Copy, Debug, PartialEq, Eq)]
pub struct SectionId(pub u32);

/// A value: an offset in bytes within a section, or a plain number where it has none.
#[derive(Clone, Copy, Debug, PartialEq, Eq)]
pub struct Reloc {
    pub section: Option<SectionId>,
    pub value: i32,
}

/// A control section, or the unnamed one, with its length in bytes.
#[derive(Drop)]
pub struct Section {
    pub name: Option<Name>,
    pub length: u32,
}

impl Section {
    /// Another section that says the same. It takes no memory.
    pub fn copy(&self) -> Section
        ensures { result ≡ self.now }
    {
        let name = match &self.name {
            Some(name) => Some(name.copy()),
            None => None,
        };
        Section {
            name,
            length: self.length,
        }
    }
}

/// Sections by their numbers, that of number 0 first. Contracts see the list.
#[derive(Drop)]
pub struct Sections {
    sections: Vec<Section>,
}

impl Model for Sections {
    ghost use Rattle.std.specs.Prelude.{List};
    ghost use Rattle.trace_values.specs.declared.section.Section.{Section};

    ghost Value = { List Section };

    ghost view = { λ s. s.sections.items };
}

impl Sections {
    /// No section.
    pub fn new(alloc: Global) -> Sections
        ensures { result ≡ [] }
    {
        Sections {
            sections: Vec::new(alloc),
        }
    }

    /// Adds a section behind those that are there. An `Err` changes nothing.
    pub fn push(&mut self, section: Section) -> Result<(), OutOfMemory>
        ensures ok { OnOk result (self.new ≡ self.old ++ section ∷ []) }
        ensures err { OnErr result (self.new ≡ self.old) }
    {
        self.sections.push(section)?;
        Ok(())
    }

    /// The sections, that of number 0 first.
    pub fn as_slice(&self) -> &[Section]
        ensures { result.now ≡ self.now }
    {
        self.sections.as_slice()
    }

    /// Another list of the same sections.
    pub fn copy(&self, alloc: Global) -> Result<Sections, OutOfMemory>
        ensures { IfOk result (λ s. s ≡ self.now) }
    {
        let mut sections = Vec::with_capacity(alloc, self.sections.len())?;
        for section in &self.sections {
            sections.push(section.copy())?;
        }
        Ok(Sections { sections })
    }
}
