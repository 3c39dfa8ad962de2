//! The index of a look ahead: the labels of open code under their names, with the statements that give them.
ghost use Rattle.std.specs.Prelude.{◌≡◌, ℕ, List, [], ◌∷◌, ◌++◌, IfOk, OnOk, if◌then◌else◌};
ghost use Rattle.std.specs.Str.{bytes_eq};
ghost use Rattle.lookahead_scan.specs.Held.{held_under};
ghost use Rattle.lookahead_scan.specs.Looks as looks;
ghost use Rattle.lookahead_scan.specs.Places as places;

use crate::copying::offer;
use crate::sight::{Label, Sight};
use crate::statements::sights_of;
use hl_base::{Attr, Name, OutOfMemory};
use hlasm_statements::Statements;
use std::alloc::Global;
use std::collections::HashMap;
use text_pool::Present;

/// A label in open code, or in a member that is copied there: the number of the statement that gives it, and what it means.
#[derive(Clone, Copy, Debug, PartialEq, Eq)]
pub struct Found {
    pub at: u32,
    pub attr: Attr,
}

/// What a look ahead finds behind each statement.
#[derive(Drop)]
pub struct LookIndex {
    names: Names,
    /// The statements behind which nothing is found: END, and COPY of a member with one.
    ends: Vec<u32>,
}

/// The first of these that is given behind a statement.
fn first_behind(mut founds: &[Found], after: u32) -> Option<Found>
    ensures { result ≡ places.first_behind after founds.entry.now }
{
    while let [found, rest @ ..] = founds {
        if after < found.at {
            return Some(*found);
        }
        founds = rest;
    }
    None
}

/// The first of these statements that stands behind another.
fn first_end(mut ends: &[u32], after: u32) -> Option<u32>
    ensures { result ≡ places.first_end after ends.entry.now }
{
    while let [end, rest @ ..] = ends {
        if after < *end {
            return Some(*end);
        }
        ends = rest;
    }
    None
}

/// What is found of a label, where END stands there.
fn up_to(found: Option<Found>, end: Option<u32>) -> Option<Attr>
    ensures { result ≡ places.up_to found end }
{
    match (found, end) {
        (Some(found), Some(end)) => {
            if found.at > end {
                return None;
            }
            Some(found.attr)
        }
        (Some(found), None) => Some(found.attr),
        (None, _) => None,
    }
}

/// The labels under their names.
type Names = HashMap<String, Vec<Found>>;

/// Adds a label under its name, behind those that are there.
fn add_found(names: &mut Names, alloc: Global, name: &str, found: Found) -> Result<(), OutOfMemory>
    ensures { OnOk result ((sought : List ℕ) → held_under names.new sought ≡ held_under names.old sought ++ (if bytes_eq name.now sought then found ∷ [] else [])) }
{
    let mut held = names.remove(name).unwrap_or(Vec::new(alloc));
    push(&mut held, found)?;
    let key = String::from_str(alloc, name)?;
    names.insert(key, held)?;
    Ok(())
}

/// Adds a label behind others.
fn push(founds: &mut Vec<Found>, found: Found) -> Result<(), OutOfMemory>
    ensures { OnOk result (founds.new.items ≡ founds.old.items ++ found ∷ []) }
{
    founds.push(found)?;
    Ok(())
}

/// Adds the number of a statement behind others.
fn push_end(ends: &mut Vec<u32>, at: u32) -> Result<(), OutOfMemory>
    ensures { OnOk result (ends.new.items ≡ ends.old.items ++ at ∷ []) }
{
    ends.push(at)?;
    Ok(())
}

impl LookIndex {
    ghost use Rattle.lookahead_scan.specs.Index.{founds, finds, Adds};

    /// An index of nothing.
    fn new(alloc: Global) -> LookIndex
        ensures names { (name : List ℕ) → founds result name ≡ [] }
        ensures ends { result.ends.items ≡ [] }
    {
        LookIndex {
            names: HashMap::new(alloc),
            ends: Vec::new(alloc),
        }
    }

    /// Notes the labels that a statement gives.
    fn note(&mut self, alloc: Global, mut labels: &[Label], at: u32) -> Result<(), OutOfMemory>
        ensures names { OnOk result ((name : List ℕ) → founds self.new name ≡ founds self.old name ++ places.founds_at name at labels.entry.now) }
        ensures ends { OnOk result (self.new.ends ≡ self.old.ends) }
    {
        while let [label, rest @ ..] = labels {
            let found = Found {
                at,
                attr: label.attr,
            };
            add_found(&mut self.names, alloc, label.name.text(), found)?;
            labels = rest;
        }
        Ok(())
    }

    /// Adds what the next statement gives.
    fn add<P: Present>(
        &mut self,
        alloc: Global,
        present: &P,
        sight: Sight,
        at: u32,
    ) -> Result<(), OutOfMemory>
        ensures { OnOk result (Adds self.old self.new (looks.offer (P.members present.now) sight) at) }
    {
        let copied = offer(alloc, present, sight)?;
        self.note(alloc, copied.labels.as_slice(), at)?;
        if copied.ends {
            push_end(&mut self.ends, at)?;
        }
        Ok(())
    }

    /// Reads the statements of open code, and the members that they copy.
    pub fn build<P: Present>(
        alloc: Global,
        list: &Statements,
        present: &P,
    ) -> Result<LookIndex, OutOfMemory>
        ensures { IfOk result (λ index. (name : List ℕ) (after : ℕ) → finds index name after ≡ looks.look (P.members present.now) list.now name after) }
    {
        let mut index = LookIndex::new(alloc);
        let mut left = sights_of(alloc, list)?;
        let mut at: u32 = 0;
        while let Some(sight) = left.pop_front() {
            index.add(alloc, present, sight, at)?;
            at = at.checked_add(1).ok_or(OutOfMemory)?;
        }
        Ok(index)
    }

    /// What a name means that is looked for behind the statement of this number in the list, counted from 0.
    pub fn find(&self, name: &Name, after: u32) -> Option<Attr>
        ensures { result ≡ finds self.now name.now after }
    {
        match self.names.get(name.text()) {
            Some(founds) => up_to(
                first_behind(founds.as_slice(), after),
                first_end(self.ends.as_slice(), after),
            ),
            None => None,
        }
    }
}
