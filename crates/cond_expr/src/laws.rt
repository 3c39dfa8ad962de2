//! What holds of every evaluation that goes along a tree of questions, and which do. The functions do nothing: their
//! contracts are laws.
ghost use Rattle.cond_expr.specs.Outcome.{Outcome};
ghost use Rattle.expression_grammar.specs.Trees.{Tree, Trees};
ghost use Rattle.cond_expr.specs.Frames.{IsAskingOver};
ghost use Rattle.cond_expr.specs.Values.{number, text, numbers};
ghost use Rattle.cond_expr.specs.Asking.{Answers, IsAsking, MoreChangesNothing, AsksWhatIsMissing, Ends};

/// An evaluation that has its value keeps it under more answers.
pub fn more_answers_change_nothing<V>()
    ensures { (evaluation : Answers → Outcome V) → IsAsking evaluation → MoreChangesNothing evaluation }
{}

/// An evaluation asks only for what was not answered, and adding the answer of the key that is asked, whatever it is, comes
/// to its value.
pub fn restarts_end<V>()
    ensures missing { (evaluation : Answers → Outcome V) → IsAsking evaluation → AsksWhatIsMissing evaluation }
    ensures end { (evaluation : Answers → Outcome V) (answers : Answers) → IsAsking evaluation → Ends evaluation answers }
{}

/// The values of expressions go along trees of questions: those of numbers, of texts and of subscripts, over each frame.
pub fn values_are_asked()
    ensures number { (tree : Tree) → IsAskingOver (number tree) }
    ensures text { (tree : Tree) → IsAskingOver (text tree) }
    ensures numbers { (trees : Trees) → IsAskingOver (numbers trees) }
{}
