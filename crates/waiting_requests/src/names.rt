//! What assemblies tell of names.
ghost use Rattle.std.specs.Prelude.{◌≡◌};
ghost use Rattle.waiting_requests.specs.Names.{touches};

use hl_base::PathId;
use std::marker::Model;
use trace_values::{Occurrence, Section, SymbolRow};

/// What the latest assembly of a program tells of names: the number of the program's path, its symbols and sections, the
/// occurrences that stand in the order of processing, and the numbers of the paths that it touches. Contracts see the lists.
#[derive(Drop)]
pub struct ProgramNames<'a> {
    path: PathId,
    rows: &'a [SymbolRow],
    sections: &'a [Section],
    occurrences: &'a [Occurrence],
    touched: &'a [PathId],
}

impl<'a> Model for ProgramNames<'a> {
    ghost use Rattle.waiting_requests.specs.Names.{Names, names_code};

    ghost Value = { Names };

    ghost coded = { names_code };

    ghost view = { λ s. record {
      path = s.path.0;
      rows = s.rows.now;
      sections = s.sections.now;
      occurrences = s.occurrences.now;
      touched = s.touched.now;
    } };
}

impl<'a> ProgramNames<'a> {
    /// What an assembly of the program at a path tells.
    pub fn new(
        path: PathId,
        rows: &'a [SymbolRow],
        sections: &'a [Section],
        occurrences: &'a [Occurrence],
        touched: &'a [PathId],
    ) -> ProgramNames<'a>
        ensures { result ≡ record {
          path = path.0;
          rows = rows.now;
          sections = sections.now;
          occurrences = occurrences.now;
          touched = touched.now;
        } }
    {
        ProgramNames {
            path,
            rows,
            sections,
            occurrences,
            touched,
        }
    }

    /// The number of the program's path.
    pub fn path(&self) -> PathId
        ensures { result.0 ≡ self.now.path }
    {
        self.path
    }

    /// The symbols, in the order of definition.
    pub fn rows(&self) -> &[SymbolRow]
        ensures { result.now ≡ self.now.rows }
    {
        self.rows
    }

    /// The sections by their numbers.
    pub fn sections(&self) -> &[Section]
        ensures { result.now ≡ self.now.sections }
    {
        self.sections
    }

    /// The occurrences that stand, in the order of processing.
    pub fn occurrences(&self) -> &[Occurrence]
        ensures { result.now ≡ self.now.occurrences }
    {
        self.occurrences
    }

    /// Whether the program touches a path.
    pub fn touches(&self, path: PathId) -> bool
        ensures { result ≡ touches path.0 self.now }
    {
        self.touched.iter().any(|touched| touched.0 == path.0)
    }
}
