//! What holds of debug sessions over messages.
ghost use Rattle.debug_sessions.specs.Laws.{RefusalsChangeNothing, LaunchesKeepTheirTraces};

/// A message that is refused changes nothing but how many messages its session has sent. It does nothing; its contract is the
/// claim.
pub fn refusals_change_nothing()
    ensures { RefusalsChangeNothing }
{}

/// The trace of a launch stays until its session is disconnected, whatever messages come between. It does nothing; its contract
/// is the claim.
pub fn launches_keep_their_traces()
    ensures { LaunchesKeepTheirTraces }
{}
