//! What follows for callers from what is said of one call.
ghost use Rattle.text_pool.specs.Laws.{InternedTextStands, OtherTextsStand, FreedNumberIsFree};

/// The number that `intern` gave stands for the text, and every number that was live stands for what it did. It does
/// nothing; its contract is the claim.
pub fn interned_texts_stand()
    ensures given { InternedTextStands }
    ensures others { OtherTextsStand }
{}

/// The number that the last `release` took out is not live, and every other number is what it was. It does nothing; its
/// contract is the claim.
pub fn freed_numbers_are_free()
    ensures { FreedNumberIsFree }
{}
