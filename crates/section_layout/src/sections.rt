//! The list of sections.
ghost use Rattle.std.specs.Prelude.{◌≡◌, slice_get, IfOk};
ghost use Rattle.section_layout.specs.SectionLists as spec;
ghost use Rattle.section_table.specs.Shown.{table_of};

use hl_base::{Name, OutOfMemory};
use section_table::SectionTable;
use std::alloc::Global;
use trace_values::{Section, Sections};

/// The section of a number.
#[tactic(auto, unfolding(crate::specs::SectionLists::section_at))]
fn section_at(table: &SectionTable, number: usize) -> Section
    ensures { result ≡ spec.section_at (table_of table.now) number }
{
    Section {
        name: name_at(table, number),
        length: length_at(table, number),
    }
}

/// Its name, if it has one.
fn name_at(table: &SectionTable, number: usize) -> Option<Name>
    ensures { result ≡ spec.name_by (slice_get (table_of table.now).names number) }
{
    let name = table.name(number)?;
    Name::read(name)
}

/// Its length.
fn length_at(table: &SectionTable, number: usize) -> u32
    ensures { result ≡ spec.length_by (slice_get (table_of table.now).spans number) }
{
    match table.span(number) {
        Some(span) => span.counter.length,
        None => 0,
    }
}

/// The sections by their numbers.
#[tactic(auto, using(crate::proofs::Ranges::sections_more))]
pub(crate) fn sections_of(alloc: Global, table: &SectionTable) -> Result<Sections, OutOfMemory>
    ensures { IfOk result (λ sections. sections ≡ spec.sections_of (table_of table.now)) }
{
    let mut sections = Sections::new(alloc);
    for number in 0..table.count() {
        sections.push(section_at(table, number))?;
    }
    Ok(sections)
}
