//! What follows for callers from what is said of one call.
ghost use Rattle.set_symbols.specs.Laws.{DeclaredSymbolIsUnset, OtherSymbolsStand, SetValueIsHeld, OtherValuesStand};

/// A symbol that was declared is there and holds nothing, and every other symbol is what it was. It does nothing; its
/// contract is the claim.
pub fn declared_symbols_stand()
    ensures declared { DeclaredSymbolIsUnset }
    ensures others { OtherSymbolsStand }
{}

/// A value that was set is what its element holds. Every other element, and every other symbol, holds what it held. It
/// does nothing; its contract is the claim.
pub fn set_values_stand()
    ensures held { SetValueIsHeld }
    ensures others { OtherValuesStand }
{}
