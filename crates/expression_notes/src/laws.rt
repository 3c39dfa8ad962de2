//! What holds of rows that say of no symbol twice that it is not defined. The functions do nothing: their contracts are the laws.
ghost use Rattle.std.specs.Prelude.{◌≡◌, ◌≤◌, ℕ, List, ◌++◌};
ghost use Rattle.note_rows.specs.declared.row.Row.{Row};
ghost use Rattle.expression_notes.specs.Repeating.{is_said, once_behind, times_said};

/// Where it was said once at most of a symbol that it is not defined, it still is.
pub fn symbols_are_said_once()
    ensures { (given rows : List Row) (name : List ℕ) → times_said given name ≤ 1 → times_said (given ++ once_behind given rows) name ≤ 1 }
{}

/// Nothing is lost: of the same symbols it is said that they are not defined as if all rows stood there.
pub fn no_symbol_is_lost()
    ensures { (given rows : List Row) (name : List ℕ) → is_said (given ++ once_behind given rows) name ≡ is_said (given ++ rows) name }
{}
