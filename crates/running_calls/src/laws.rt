//! What is true of the calls of all points.
ghost use Rattle.std.specs.Prelude.{[]};
ghost use Rattle.running_calls.specs.Calls.{Follows, FollowsOn, MeansAsTold};

/// Where no point was met there is no call; and where the calls are those of some points, a point that is met and passed makes
/// them those of one point more. In a call that goes on in its own definition variable symbols mean what all points before tell.
/// It does nothing; its contract is the claim.
pub fn calls_follow_the_points()
    ensures begin { Follows [] [] }
    ensures go_on { FollowsOn }
    ensures meaning { MeansAsTold }
{}
