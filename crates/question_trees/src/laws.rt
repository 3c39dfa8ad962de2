//! What joins evaluations and trees of questions. The functions do nothing: their contracts are laws.
ghost use Rattle.std.specs.Prelude.{◌≡◌, List};
ghost use Rattle.hl_base.specs.declared.set.Answer.{Answer};
ghost use Rattle.hl_base.specs.declared.set.Key.{Key};
ghost use Rattle.kept_values.specs.Answers.{answer_tree};
ghost use Rattle.cond_expr.specs.Outcome.{Outcome};
ghost use Rattle.cond_expr.specs.Asking.{Asking, Answers, IsAsking};
ghost use Rattle.question_trees.specs.Answers.{answer_in};
ghost use Rattle.question_trees.specs.Bridge.{LeadsAsFar, ComesToTheResult, EvaluatesToTheResult, TellsWhatIsNoted};

/// An answer is read back from its tree.
pub fn answers_are_read_back()
    ensures { (answer : Answer) → answer_in (answer_tree answer) ≡ answer }
{}

/// Under answers that are told as trees, the tree of an evaluation leads as far as the evaluation under the answers that
/// these trees are: to its end, or to the first key that has no answer.
pub fn evaluations_lead_as_far<V, B>()
    ensures { (evaluation : Answers → Outcome V) (is : IsAsking evaluation) → LeadsAsFar B evaluation is }
{}

/// Where each key has an answer, the tree comes to what the evaluation's own tree comes to.
pub fn trees_come_to_the_result<A, B>()
    ensures { (tree : Asking A) → ComesToTheResult B tree }
{}

/// Where each key has an answer, an evaluation gives what its tree comes to.
pub fn evaluations_come_to_the_result<V>()
    ensures { (evaluation : Answers → Outcome V) (is : IsAsking evaluation) → EvaluatesToTheResult evaluation is }
{}

/// Of answers that were noted one after the other, a key is told the first one of its own.
pub fn noted_answers_are_told()
    ensures { TellsWhatIsNoted }
{}
