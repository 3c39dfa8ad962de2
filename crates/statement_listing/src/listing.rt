//! Lists of statements.
ghost use Rattle.std.specs.Prelude.{◌≡◌, IfOk, is_some, option_copied, option_map, slice_get};
ghost use Rattle.statement_listing.specs.Listings.{elements, lent, line_number, listing_of, place_at, place_of, plain_lines};
ghost use Rattle.statement_listing.specs.Views.{lent_line, lent_of};

use crate::index::{found_label, note_found, number_of};
use crate::numbering::Numbering;
use crate::source::lines_after;
use crate::{Line, begun_behind, lines_of};
use hl_base::{Name, Origin, OutOfMemory, PathId};
use hlasm_statements::Statements;
use indexmap::IndexMap;
use statement_reading::ReadStatement;
use std::alloc::Global;
use std::marker::Model;
use std::rc::Rc;

/// What a list holds: its lines, the places of labels among those that are processed, and which lines these are.
#[derive(Drop)]
struct Body {
    lines: Vec<Line>,
    places: IndexMap<String, u32>,
    numbering: Numbering,
}

/// A list of statements. Contracts see the list of them with the places where they stand. It is shared: `share` takes no
/// memory.
#[derive(Drop)]
pub struct Listing {
    body: Rc<Body>,
}

impl Model for Listing {
    ghost use Rattle.std.specs.Prelude.{◌≡◌, List};
    ghost use Rattle.statement_listing.specs.Listings.{Listed, elements};
    ghost use Rattle.statement_listing.specs.Sources.{IsIndex, IsNumbering};

    ghost Value = { List Listed };

    ghost view = { λ l. l.body.value.lines.items };

    ghost invariant = { λ l. IsIndex l.body.value.places.entries (elements l.body.value.lines.items)
        × IsNumbering l.body.value.numbering l.body.value.lines.items };
}

/// A statement that is processed: where it stands, and how it is read.
#[derive(Drop)]
pub struct Element<'a> {
    pub origin: Origin,
    pub reading: &'a ReadStatement,
}

/// A line as a statement that is processed, if it is.
fn lend(line: &Line) -> Option<Element<'_>>
    ensures { option_map lent_of result ≡ lent_line line.now }
{
    match line.reading() {
        Some(reading) => Some(Element {
            origin: line.origin(),
            reading,
        }),
        None => None,
    }
}

impl Listing {
    /// The statements of the text of a path. `OutOfMemory` also where more are processed than a `u32` counts.
    pub fn of(alloc: Global, path: PathId, statements: Statements) -> Result<Listing, OutOfMemory>
        ensures { IfOk result (λ l. l ≡ listing_of path statements) }
    {
        Listing::of_lines(alloc, lines_of(alloc, path, statements)?)
    }

    /// The same, where another list was read before: a statement that stands in it as far from its front or its back is not read
    /// again.
    pub fn after(
        alloc: Global,
        path: PathId,
        statements: Statements,
        earlier: &Listing,
    ) -> Result<Listing, OutOfMemory>
        ensures { IfOk result (λ l. l ≡ listing_of path statements) }
    {
        let lines = lines_after(alloc, path, statements, earlier.lines())?;
        Listing::of_lines(alloc, lines)
    }

    /// A list of these lines. `OutOfMemory` also where more are processed than a `u32` counts.
    pub fn of_lines(alloc: Global, lines: Vec<Line>) -> Result<Listing, OutOfMemory>
        ensures { IfOk result (λ l. l ≡ lines.items) }
    {
        let mut places = IndexMap::new(alloc);
        let mut begun = 0;
        let mut place = 0;
        for line in lines.as_slice() {
            let Some(reading) = line.reading() else {
                continue;
            };
            let label = found_label(begun, &reading.sequence_label);
            note_found(&mut places, alloc, label, place)?;
            begun = begun_behind(begun, &reading.instruction);
            place += 1;
        }
        let numbering = Numbering::of(alloc, lines.as_slice())?;
        let body = Body {
            lines,
            places,
            numbering,
        };
        Ok(Listing {
            body: Rc::new(alloc, body)?,
        })
    }

    /// The same list. It takes no memory; an `Err` comes only where it is shared more often than can be counted.
    pub fn share(&self) -> Result<Listing, OutOfMemory>
        ensures { IfOk result (λ l. l ≡ self.now) }
    {
        Ok(Listing {
            body: self.body.clone()?,
        })
    }

    /// The lines in order, comments and blank statements among them.
    pub fn lines(&self) -> &[Line]
        ensures { result.now ≡ self.now }
    {
        self.body.lines.as_slice()
    }

    /// The line of this number.
    fn line_at(&self, number: u32) -> Option<&Line>
        ensures { option_copied result ≡ slice_get self.now number }
    {
        match self.body.lines.get(number as usize) {
            Some(line) => Some(line),
            None => None,
        }
    }

    /// The line that is processed at this place.
    pub fn point(&self, place: u32) -> Option<&Line>
        ensures { option_copied result ≡ slice_get (plain_lines self.now) place }
    {
        match self.line_number(place) {
            Some(number) => self.line_at(number),
            None => None,
        }
    }

    /// Whether a statement is processed at this place.
    pub fn has(&self, place: u32) -> bool
        ensures { result ≡ is_some (slice_get (elements self.now) place) }
    {
        self.point(place).is_some()
    }

    /// The statement that is processed at this place.
    pub fn element(&self, place: u32) -> Option<Element<'_>>
        ensures { option_map lent_of result ≡ option_map lent (slice_get (elements self.now) place) }
    {
        match self.point(place) {
            Some(line) => lend(line),
            None => None,
        }
    }

    /// The number, from 0, of the line that is processed at this place.
    pub fn line_number(&self, place: u32) -> Option<u32>
        ensures { result ≡ line_number self.now place }
    {
        self.body.numbering.number(place)
    }

    /// The place at which processing goes on at the line of this number: as many lines before it are processed.
    /// `OutOfMemory` where a `u32` does not count them.
    pub fn place_at(&self, line: u32) -> Result<u32, OutOfMemory>
        ensures { IfOk result (λ place. place ≡ place_at self.now line) }
    {
        match self.body.numbering.place(line) {
            Some(place) => Ok(place),
            None => number_of(self.body.numbering.count()),
        }
    }

    /// The place of the first statement that a branch to this sequence symbol finds.
    pub fn place_of(&self, label: &Name) -> Option<u32>
        ensures { result ≡ place_of label.now (elements self.now) }
    {
        self.body.places.get(label.text()).copied()
    }
}
