//! What holds of every macro call. The functions do nothing: their contracts are laws.
ghost use Rattle.std.specs.Prelude.{ℕ, List};
ghost use Rattle.cond_expr.specs.Asking.{Answers, MoreChangesNothing, Ends};
ghost use Rattle.cond_expr.specs.Frames.{Frame, told_by, IsAskingOver};
ghost use Rattle.macro_operands.specs.Calling.{call_of};

/// What each call comes to goes along a tree of questions, over each frame.
pub fn calls_are_asked()
    ensures { (label operands : List ℕ) → IsAskingOver (call_of label operands) }
{}

/// A call that asks nothing comes to the same under more answers; and adding the answer of the key that is asked, whatever it
/// is, comes to a call, or to none where it cannot be read.
pub fn calls_stay()
    ensures stays { (label operands : List ℕ) (frame : Frame) → MoreChangesNothing (λ answers. call_of label operands (told_by frame answers)) }
    ensures ends { (label operands : List ℕ) (frame : Frame) (answers : Answers) → Ends (λ some. call_of label operands (told_by frame some)) answers }
{}
