//! What follows for callers from the trees of keys, answers, names and texts.
ghost use Rattle.kept_values.specs.Laws.{KeysAreTheirTrees, AnswersAreTheirTrees, TextsAreTheirTrees};

/// Keys, answers, and names or texts that have one tree are one. It does nothing; its contract is the claim.
pub fn codes_are_values()
    ensures keys { KeysAreTheirTrees }
    ensures answers { AnswersAreTheirTrees }
    ensures texts { TextsAreTheirTrees }
{}
