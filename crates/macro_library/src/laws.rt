//! What follows for callers from the trees of definitions.
ghost use Rattle.macro_library.specs.Trees.{ContentsAreReadBack};

/// Reading the tree of what a definition says gives it back. It does nothing; its contract is the claim.
pub fn contents_are_read_back()
    ensures { ContentsAreReadBack }
{}
