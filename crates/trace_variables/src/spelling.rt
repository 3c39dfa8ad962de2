//! Names in their order.
ghost use Rattle.std.specs.Prelude.{◌≡◌, Some, nat_eq, refl};
ghost use Rattle.std.specs.Ordering.{nat_cmp};
ghost use Rattle.std.specs.Cmp.{partial_equiv_from_equiv};
ghost use Rattle.std.specs.Cmp.Lexicographic.{pointwise, slice_cmp, nat_list_eq_equiv, nat_list_cmp_total, texts_ties, texts_po};

use hl_base::Name;
use std::cmp::Ordering;
use std::marker::Model;

/// A name, which stands in the order of the bytes of names. It takes no memory.
#[derive(Drop)]
pub(crate) struct Spelling {
    pub(crate) name: Name,
}

impl Model for Spelling {
    ghost use Rattle.std.specs.Prelude.{ℕ, List};

    ghost Value = { List ℕ };

    ghost view = { λ s. s.name };
}

impl PartialEq for Spelling {
    ghost eq = { pointwise nat_eq };

    ghost laws = { partial_equiv_from_equiv nat_list_eq_equiv };

    fn eq(&self, other: &Spelling) -> bool {
        self.name.text() == other.name.text()
    }
}

impl Eq for Spelling {
    ghost laws = { nat_list_eq_equiv };
}

impl PartialOrd for Spelling {
    ghost partial_cmp = { λ x y. Some (slice_cmp nat_cmp x y) };

    ghost laws = { texts_po };

    fn partial_cmp(&self, other: &Spelling) -> Option<Ordering> {
        Some(self.cmp(other))
    }
}

impl Ord for Spelling {
    ghost cmp = { slice_cmp nat_cmp };

    ghost total = { nat_list_cmp_total };

    ghost matches_partial_cmp = { λ x y. refl };

    ghost matches_eq = { texts_ties };

    fn cmp(&self, other: &Spelling) -> Ordering {
        self.name.text().cmp(other.name.text())
    }
}
