//! What follows for callers from what meanings are.
ghost use Rattle.variable_meanings.specs.Laws.{MeaningsStand, MeaningIsGiven};

/// A meaning that was given to a name stands, and a name that had none has the one that it is given. It does nothing: its
/// contract is the law.
pub fn first_meanings_stand()
    ensures stands { MeaningsStand }
    ensures given { MeaningIsGiven }
{}
