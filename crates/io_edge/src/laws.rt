//! What follows for several calls in turn from what is said of one.
ghost use Rattle.io_edge.specs.Laws.{GivesInTurn, GainsInTurn, EmptyPieceKeeps, RiseWidens};

/// Calls in turn are seen as one call: the pieces join, and a fault in one of them is a fault of them all. It does
/// nothing; its contract is the claim.
pub fn calls_join()
    ensures gives { GivesInTurn }
    ensures gains { GainsInTurn }
    ensures empty { EmptyPieceKeeps }
    ensures rises { RiseWidens }
{}
