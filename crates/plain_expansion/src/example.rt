//! What the definition gives of a small language, row by row.
ghost use Rattle.plain_expansion.specs.Example.{LoopEnds, LoopIsCut, LabelIsMissing, FirstLabel, CallReturns, CallFinishes, CallIsCut, LastRoom, NoMoreRoom, LinesArePassedOver, LongLoop};

/// The definition, worked out: loops, and loops cut by the budget; a label that is nowhere, and the first of several;
/// calls that return, that end all, and that fuel ends; the last room for a frame; and lines that are passed over. It does nothing; its contract is
/// the claim.
pub fn the_rows_come_out()
    ensures ends { LoopEnds }
    ensures cut { LoopIsCut }
    ensures missing { LabelIsMissing }
    ensures first { FirstLabel }
    ensures returns { CallReturns }
    ensures finishes { CallFinishes }
    ensures call_cut { CallIsCut }
    ensures last_room { LastRoom }
    ensures no_room { NoMoreRoom }
    ensures passed { LinesArePassedOver }
    ensures long { LongLoop }
{}
