//! What breakpoints and steps mean.
ghost use Rattle.macro_debugger.specs.Laws.{BreakpointsAreReplaced, StopsAreTheLeast};

/// A step ends at the least later point at which a breakpoint is set or its rule holds, and because of the breakpoint exactly
/// where one is set; it has no end exactly where there is no such point. It does nothing; its contract is the claim.
pub fn stops_are_the_least()
    ensures { StopsAreTheLeast }
{}

/// Where the breakpoints of a file are replaced, they stand at the new lines and at no others of this file, and those of every
/// other file stay. It does nothing; its contract is the claim.
pub fn breakpoints_are_replaced()
    ensures { BreakpointsAreReplaced }
{}
