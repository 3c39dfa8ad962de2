//! Which frames have variables.
ghost use Rattle.trace_variables.specs.Laws.{FramesHaveVariables};

/// The frames of a point, counted from 1, are those that have variables. It does nothing; its contract is the claim.
pub fn frames_have_variables()
    ensures { FramesHaveVariables }
{}
