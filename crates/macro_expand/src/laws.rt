//! What holds of the effects of all statements. The function does nothing: its contract is a law.
ghost use Rattle.macro_expand.specs.Language.{EffectsAreThoseOfStatements};

/// The effect of each statement in the language is a tree of questions, which leads as far as the definition of statements'
/// effects does under the same answers: to the same key that is asked first, or to what comes of the same act and notes.
pub fn effects_are_those_of_statements()
    ensures { EffectsAreThoseOfStatements }
{}
