//! What is true of all readings.
ghost use Rattle.std.specs.Prelude.{◌≡◌, ◌≢◌, ℕ, List, []};
ghost use Rattle.std.specs.Cmp.Lexicographic.{slice_cmp};
ghost use Rattle.std.specs.List.Sorted.{IsPermutation, IsSorted};
ghost use Rattle.std.specs.Ordering.{nat_cmp};
ghost use Rattle.library_reading.specs.Asked.{Differs};
ghost use Rattle.library_reading.specs.Laws.{LeavesMore};
ghost use Rattle.library_reading.specs.Order.{in_order};
ghost use Rattle.library_reading.specs.Reading.{configuration_read};
ghost use Rattle.library_reading.specs.Taking.{Taking, member_read};

/// A reading that came to something over some calls comes to it whatever is to come behind them, and leaves that. Where no
/// call is to come, none is another than the one that is made. It does nothing; its contract is the claim.
pub fn readings_go_by_their_calls()
    ensures configuration { (root : List ℕ) (taking : Taking) → LeavesMore (configuration_read root taking) }
    ensures member { (path : List ℕ) (taking : Taking) → LeavesMore (member_read path taking) }
    ensures configuration_first { (root : List ℕ) (taking : Taking) → configuration_read root taking [] ≢ Differs }
    ensures member_first { (path : List ℕ) (taking : Taking) → member_read path taking [] ≢ Differs }
{}

/// The names in order are the only sorted list of them, also where some are equal. It does nothing; its contract is the claim.
pub fn order_of_names_is_unique()
    ensures { (names sorted : List (List ℕ)) → IsPermutation names sorted → IsSorted (slice_cmp nat_cmp) sorted → in_order names ≡ sorted }
{}
