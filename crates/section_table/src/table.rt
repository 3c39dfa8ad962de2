//! The table of sections.
ghost use Rattle.std.specs.Prelude.{◌≡◌, ◌<◌, ◌++◌, ◌∷◌, [], None, length, map, slice_get, OnOk, OnErr, vec_len, vec_capacity};
ghost use Rattle.std.specs.Option.{option_map, option_copied};
ghost use Rattle.section_table.specs.Spans as spans;
ghost use Rattle.section_table.specs.Tables as tables;
ghost use Rattle.section_table.specs.Views.{span_of, spelled};

use crate::Span;
use hl_base::OutOfMemory;
use indexmap::IndexSet;
use std::alloc::Global;

/// A place: the section by its place in the order in which sections begin, counted from 0, and an offset in bytes.
#[derive(Clone, Copy, Debug, PartialEq, Eq)]
pub struct Place {
    pub section: usize,
    pub offset: u32,
}

/// The sections of an assembly. Contracts see their names and how far each has come, in the order in which they begin, and
/// which is the current one.
#[derive(Drop)]
pub struct SectionTable {
    names: IndexSet<String>,
    spans: Vec<Span>,
    current: Option<usize>,
    ghost paired: { length names.keys ≡ length spans.items },
}

impl SectionTable {
    ghost use Rattle.section_table.specs.Shown.{table_of};

    /// No section. It takes no memory.
    pub fn new(alloc: Global) -> SectionTable
        ensures { table_of result ≡ tables.empty }
    {
        SectionTable {
            names: IndexSet::new(alloc),
            spans: Vec::new(alloc),
            current: None,
        }
    }

    /// The place of the section of a name; the unnamed one has the empty name.
    pub fn named(&self, name: &str) -> Option<usize>
        ensures { result ≡ tables.named (table_of self.now) name.now }
    {
        self.names.get_index_of(name)
    }

    /// How many sections there are.
    pub fn count(&self) -> usize
        ensures { result ≡ length (table_of self.now).spans }
    {
        self.spans.len()
    }

    /// Begins or resumes the section of a name. An `Err` changes nothing.
    pub fn enter(&mut self, alloc: Global, name: &str, dummy: bool) -> Result<(), OutOfMemory>
        ensures entered { OnOk result (table_of self.new ≡ tables.enter name.now dummy (table_of self.old)) }
        ensures kept { OnErr result (table_of self.new ≡ table_of self.old) }
    {
        match self.named(name) {
            Some(place) => {
                self.current = Some(place);
                Ok(())
            }
            None => self.begin(alloc, name, dummy),
        }
    }

    /// A section of a new name begins.
    fn begin(&mut self, alloc: Global, name: &str, dummy: bool) -> Result<(), OutOfMemory>
        requires { tables.named (table_of self.old) name.now ≡ None }
        ensures begun { OnOk result (table_of self.new ≡ tables.entered None name.now dummy (table_of self.old)) }
        ensures kept { OnErr result (table_of self.new ≡ table_of self.old) }
    {
        let key = String::from_str(alloc, name)?;
        self.spans.reserve(1)?;
        self.names.insert(key)?;
        self.current = Some(self.spans.len());
        push_within(&mut self.spans, Span::new(dummy));
        Ok(())
    }

    /// The section at a place is resumed.
    pub fn resume(&mut self, place: usize)
        ensures { table_of self.new ≡ tables.resumed place (table_of self.old) }
    {
        self.current = Some(place);
    }

    /// How far the section at a place has come.
    pub fn span(&self, place: usize) -> Option<Span>
        ensures { option_map span_of result ≡ slice_get (table_of self.now).spans place }
    {
        self.spans.get(place).copied()
    }

    /// The name of the section at a place.
    pub fn name(&self, place: usize) -> Option<&str>
        ensures { option_copied result ≡ slice_get (table_of self.now).names place }
    {
        let name = self.names.get_index(place)?;
        Some(name.as_str())
    }

    /// A place is needed: the unnamed section begins where there is no current one. An `Err` changes nothing.
    pub fn need(&mut self, alloc: Global) -> Result<(), OutOfMemory>
        ensures needed { OnOk result (table_of self.new ≡ tables.needed (table_of self.old)) }
        ensures kept { OnErr result (table_of self.new ≡ table_of self.old) }
    {
        match self.current {
            Some(_) => Ok(()),
            None => self.enter(alloc, "", false),
        }
    }

    /// Where the counter of the current section stands, if there is one.
    pub fn here(&self) -> Option<Place>
        ensures { result ≡ tables.here (table_of self.now) }
    {
        let section = self.current?;
        let span = self.spans.get(section)?;
        Some(Place {
            section,
            offset: span.counter.at,
        })
    }

    /// Where a byte on a boundary would stand in the current section, if there is one.
    pub fn next(&self, boundary: u32) -> Option<Place>
        requires { 0 < boundary }
        ensures { result ≡ tables.begins boundary 0 (table_of self.now) }
    {
        let section = self.current?;
        let mut span = self.span(section)?;
        let offset = span.take(boundary, 0)?;
        Some(Place { section, offset })
    }

    /// Takes so many bytes on a boundary in the current section, and says where they begin; nothing changes where there is no
    /// current section, or where it would get too long.
    pub fn take(&mut self, boundary: u32, bytes: u64) -> Option<Place>
        requires { 0 < boundary }
        ensures begins { result ≡ tables.begins boundary bytes (table_of self.old) }
        ensures taken { table_of self.new ≡ tables.taken boundary bytes (table_of self.old) }
    {
        let section = self.current?;
        if section >= self.spans.len() {
            return None;
        }
        let offset = self.spans[section].take(boundary, bytes)?;
        Some(Place { section, offset })
    }

    /// ORG in the current section: its counter goes on at a place, unless the section would get too long; says whether it
    /// does.
    pub fn org(&mut self, at: u32) -> bool
        ensures fits { result ≡ tables.may_org at (table_of self.old) }
        ensures moved { table_of self.new ≡ tables.changed (spans.org at) (table_of self.old) }
    {
        let Some(section) = self.current else {
            return false;
        };
        if section >= self.spans.len() {
            return false;
        }
        self.spans[section].org(at)
    }

    /// ORG without an operand: the counter of the current section goes on at the highest place where it stood.
    pub fn org_to_end(&mut self)
        ensures { table_of self.new ≡ tables.changed spans.org_to_end (table_of self.old) }
    {
        let Some(section) = self.current else {
            return;
        };
        if section < self.spans.len() {
            self.spans[section].org_to_end();
        }
    }
}

/// A section goes last, for which there is room.
fn push_within(spans: &mut Vec<Span>, span: Span)
    requires { vec_len spans.old < vec_capacity spans.old }
    ensures { spans.new.items ≡ spans.old.items ++ span ∷ [] }
{
    let _ = spans.push(span);
}
