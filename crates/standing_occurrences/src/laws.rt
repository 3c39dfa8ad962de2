//! What is true of all lists of occurrences.
ghost use Rattle.std.specs.Prelude.{◌≡◌, List, [], ◌∷◌, ◌++◌};
ghost use Rattle.std.specs.List.{list_any};
ghost use Rattle.trace_values.specs.declared.occurrence.Occurrence.{Occurrence};
ghost use Rattle.standing_occurrences.specs.Standing.{is_same_place, standing, with_first};

/// Behind some occurrences another one stands exactly where none of them has its place; each place of theirs is the place of
/// one that stands; and of those that stand all do. It does nothing; its contract is the claim.
pub fn the_first_of_each_place_stands()
    ensures behind { (occurrences : List Occurrence) (next : Occurrence) → standing (occurrences ++ next ∷ []) ≡ with_first (standing occurrences) next }
    ensures places { (occurrences : List Occurrence) (one : Occurrence) → list_any (is_same_place one) (standing occurrences) ≡ list_any (is_same_place one) occurrences }
    ensures again { (occurrences : List Occurrence) → standing (standing occurrences) ≡ standing occurrences }
{}
