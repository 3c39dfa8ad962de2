//! What holds of the effect of every statement. The functions do nothing: their contracts are laws.
ghost use Rattle.cond_expr.specs.Asking.{Answers, MoreChangesNothing, Ends};
ghost use Rattle.cond_expr.specs.Frames.{Frame, told_by, IsAskingOver};
ghost use Rattle.statement_reading.specs.Readings.{Reading};
ghost use Rattle.conditional_asm.specs.Effects.{effect_of};

/// The effect of every statement that was read goes along a tree of questions, over each frame.
pub fn effects_are_asked()
    ensures { (reading : Reading) → IsAskingOver (effect_of reading) }
{}

/// An effect that asks nothing is the same under more answers; and adding the answer of the key that is asked, whatever it
/// is, comes to an effect.
pub fn effects_stay()
    ensures stays { (reading : Reading) (frame : Frame) → MoreChangesNothing (λ answers. effect_of reading (told_by frame answers)) }
    ensures ends { (reading : Reading) (frame : Frame) (answers : Answers) → Ends (λ some. effect_of reading (told_by frame some)) answers }
{}
