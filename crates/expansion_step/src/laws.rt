//! What holds of the machine of each language in code, over each world. The functions do nothing: their contracts are laws.
ghost use Rattle.std.specs.Prelude.{ℕ, [], true};
ghost use Rattle.asking_core.specs.Machines.{Nothing};
ghost use Rattle.asking_core.specs.Runs.{Run, Plain};
ghost use Rattle.plain_expansion.specs.Expansion.{expansion};
ghost use Rattle.plain_expansion.specs.Engine.{expander};
ghost use Rattle.plain_expansion.specs.Watch.{KeepsToWatch};
ghost use Rattle.plain_expansion.specs.Laws.{Gives};
ghost use Rattle.expansion_step.specs.Watch.{most_actions};

use crate::{CodedLanguage, Expander};
use asking_core::{AskMachine, World};

/// Each plain run of a call by this machine gives the plain expansion of the call in its language.
pub fn runs_are_expansions<X: CodedLanguage, W: World>()
    ensures { (call : X.language.words.Call) (s : (W.model).State) (fuel depth : ℕ) (run : Run X.language.words.Call X.language.Item) →
        Plain ⟦<Expander<X> as AskMachine>⟧.model W.model s (⟦<Expander<X> as AskMachine>⟧.model.start call) Nothing fuel depth 0 run →
        Gives ⟦<Expander<X> as AskMachine>⟧.model W.model [] (⟦<Expander<X> as AskMachine>⟧.model.start call) Nothing s 0 run
        (expansion X.language W.model call s fuel depth) }
{}

/// Each plain run of a call in which no more actions are done without a unit of fuel than the watch lets pass, moving keys
/// are asked before anything else is done, and only writable keys are put, is a plain run by this machine.
pub fn watched_calls_run<X: CodedLanguage, W: World>()
    ensures { (call : X.language.words.Call) (s : (W.model).State) (fuel depth : ℕ) (run : Run X.language.words.Call X.language.Item) →
        Plain (expander X.language) W.model s ((expander X.language).start call) Nothing fuel depth 0 run →
        KeepsToWatch most_actions X.moving X.writable true most_actions run →
        Plain ⟦<Expander<X> as AskMachine>⟧.model W.model s (⟦<Expander<X> as AskMachine>⟧.model.start call) Nothing fuel depth 0 run }
{}
