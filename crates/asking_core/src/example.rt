//! Why a world has to fit its machine, and one that does.
ghost use Rattle.asking_core.specs.Counters.{counters, counters_move, cell_is_writable, counters_back};
ghost use Rattle.asking_core.specs.Laws.{FootprintLaw};
ghost use Rattle.asking_core.specs.Worlds.{Fits};
ghost use Rattle.asking_core.specs.Example.{hasty, parity, taken_back, FitsButForOne};

/// A world that breaks one law of those that fit breaks the law of footprints: it answers whether an even number of
/// calls was counted, and a machine asks that, as if it were no moving key, behind a call that it counted. It does
/// nothing; its contract is the claim.
pub fn an_unfit_world_breaks_the_law()
    ensures else_fit { FitsButForOne parity taken_back }
    ensures broken { ¬ (FootprintLaw hasty parity taken_back) }
{}

/// A world whose counters of calls and of depth go round at 2^32 fits. It does nothing; its contract is the claim.
pub fn counters_that_go_round_fit()
    ensures { Fits counters counters_move cell_is_writable counters_back }
{}
