//! The tables by their words.
ghost use Rattle.std.specs.Prelude.{◌≡◌};
ghost use Rattle.example_language.specs.Lines.{lists_by};

use crate::footprints::{held, noted};
use crate::reading::{Limits, lists};
use crate::running::run;
use crate::writing::written;
use case_lines::CaseTable;
use example_language::{Cells, ExampleLanguage, ListNumber, Listing, Program};
use expansion_step::Expander;
use hl_base::{Ledger, OutOfMemory, Steps};
use std::alloc::Global;
use std::marker::Brand;
use std::sync::ledger::Blank;

/// What a table's cases ask.
#[derive(Clone, Copy, Drop)]
pub enum Table {
    /// What comes of list 0 of some lists.
    Expansions,

    /// What is noted of answers.
    Footprints,

    /// Whether what was noted holds.
    Held,
}

/// What comes of list 0, in a ledger that nothing else uses.
fn expand<P: Program + Drop, L: Ledger>(
    alloc: Global,
    lists: Vec<Listing>,
    limits: Limits,
    blank: Blank,
) -> Result<String, OutOfMemory>
    requires lists { lists_by lists.items ≡ P.lists }
    requires branches { limits.branches ≡ P.branches }
    requires name { blank.name ≡ L.name }
    requires parts { blank.parts ≡ L.parts }
    requires one { blank.parts ≡ 1 }
{
    let language = ExampleLanguage::<P>::new(lists, limits.branches);
    let machine = Expander::new(language);
    let mut world = Cells::new();
    let mut steps = Steps::<L>::open(blank);
    let call = ListNumber { number: 0 };
    let ran = run(&machine, alloc, &mut world, &call, limits, &mut steps)?;
    written(alloc, &ran, &world)
}

/// What is answered where the fields are not those of the table.
fn other_fields(alloc: Global) -> Result<String, OutOfMemory> {
    Ok(String::from_str(alloc, "of other fields than the table's")?)
}

/// What comes of list 0 of the lists that stand behind the limits.
fn expansion(alloc: Global, fields: &[String]) -> Result<String, OutOfMemory> {
    let Some((first, texts)) = fields.split_first() else {
        return other_fields(alloc);
    };
    let Some(limits) = Limits::read(first.as_str()) else {
        return other_fields(alloc);
    };
    match lists(alloc, texts)? {
        Some(lists) => expand::<Brand, Brand>(alloc, lists, limits, Blank::new(1)),
        None => other_fields(alloc),
    }
}

impl CaseTable for Table {
    fn named(word: &str) -> Option<Table> {
        match word {
            "expansions" => Some(Table::Expansions),
            "footprints" => Some(Table::Footprints),
            "held_footprints" => Some(Table::Held),
            _ => None,
        }
    }

    fn answer(&self, alloc: Global, fields: &[String]) -> Result<String, OutOfMemory> {
        match (*self, fields) {
            (Table::Expansions, fields) => expansion(alloc, fields),
            (Table::Footprints, [words]) => noted(alloc, words.as_str()),
            (Table::Held, [script]) => held(alloc, script.as_str()),
            _ => other_fields(alloc),
        }
    }
}
