//! What follows for callers from what the calls of an arena change.
ghost use Rattle.trace_cursor.specs.Laws.{StandsWhenBegun, StandsWhenAppended, StandsWhenLinked, StandsWhenRetained, StandsWhenReleased, TracedPointsAreThePoints, LinkedPointsStandWithin};

/// No call of an arena moves a cursor off its point as long as the root has an owner. It does nothing; its contract is
/// the claim.
pub fn cursors_stand()
    ensures begun { StandsWhenBegun }
    ensures appended { StandsWhenAppended }
    ensures linked { StandsWhenLinked }
    ensures retained { StandsWhenRetained }
    ensures released { StandsWhenReleased }
{}

/// What a path says of a point is said of the point of that number. It does nothing; its contract is the claim.
pub fn traced_points_are_the_points()
    ensures { TracedPointsAreThePoints }
{}

/// The points of a node have, where it is linked, the frames of that place round them. It does nothing; its contract is the
/// claim.
pub fn linked_points_stand_within()
    ensures { LinkedPointsStandWithin }
{}
