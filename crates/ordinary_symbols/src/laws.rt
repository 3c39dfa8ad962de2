//! What holds of the symbols after the last round. The function does nothing: its contract is the law.
ghost use Rattle.std.specs.Prelude.{◌≡◌};
ghost use Rattle.ordinary_symbols.specs.Table.{Table};
ghost use Rattle.ordinary_symbols.specs.Rounds.{round, resolved};

/// A further round settles nothing.
pub fn rounds_end()
    ensures { (table : Table) → round (resolved table) ≡ resolved table }
{}
