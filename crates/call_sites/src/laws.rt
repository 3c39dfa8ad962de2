//! What follows for callers from the trees of calls.
ghost use Rattle.call_sites.specs.Calls.{CallsAreReadBack};

/// Reading the tree of a call gives the call back. It does nothing; its contract is the claim.
pub fn calls_are_read_back()
    ensures { CallsAreReadBack }
{}
