//! Places of occurrences.
ghost use Rattle.std.specs.Prelude.{◌≡◌};
ghost use Rattle.standing_occurrences.specs.Kept.{place_of};

use trace_values::Occurrence;

/// Where an occurrence stands: the number of its path, its line, and its columns.
#[derive(Clone, Copy, PartialEq, Eq, Hash)]
pub(crate) struct Place {
    pub(crate) path: u32,
    pub(crate) line: u32,
    pub(crate) from: u32,
    pub(crate) to: u32,
}

impl Place {
    pub(crate) fn of(occurrence: &Occurrence) -> Place
        ensures { result ≡ place_of occurrence.now }
    {
        Place {
            path: occurrence.path.0,
            line: occurrence.line,
            from: occurrence.from,
            to: occurrence.to,
        }
    }
}
