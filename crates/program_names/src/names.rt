//! What is told of names.
ghost use Rattle.std.specs.Prelude.{◌≡◌};

use hl_base::PathId;
use standing_occurrences::Standing;
use std::marker::Model;
use trace_values::{Sections, SymbolRows};
use waiting_requests::ProgramNames;

/// What an assembly of a program tells of names. Contracts see the lists.
#[derive(Drop)]
pub struct AssembledNames {
    pub(crate) path: PathId,
    pub(crate) rows: SymbolRows,
    pub(crate) sections: Sections,
    pub(crate) occurrences: Standing,
    pub(crate) touched: Vec<PathId>,
}

impl Model for AssembledNames {
    ghost use Rattle.waiting_requests.specs.Names.{Names, names_code};

    ghost Value = { Names };

    ghost coded = { names_code };

    ghost view = { λ s. record {
      path = s.path.0;
      rows = s.rows;
      sections = s.sections;
      occurrences = s.occurrences;
      touched = s.touched.items;
    } };
}

impl AssembledNames {
    /// The same, lent.
    pub fn lend(&self) -> ProgramNames<'_>
        ensures { result ≡ self.now }
    {
        ProgramNames::new(
            self.path,
            self.rows.as_slice(),
            self.sections.as_slice(),
            self.occurrences.as_slice(),
            &self.touched,
        )
    }
}
