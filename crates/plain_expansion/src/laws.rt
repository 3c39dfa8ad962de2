//! What holds of every language and every world. The functions do nothing: their contracts are laws.
ghost use Rattle.std.specs.Prelude.{◌≡◌, ℕ, Bool, List, Option};
ghost use Rattle.kept_values.specs.Trees.{Tree};
ghost use Rattle.asking_core.specs.Machines.{Falls, EmitsOnceACount, Modest};
ghost use Rattle.plain_expansion.specs.Questions.{Asking, MoreChangesNothing, RestartsEnd, ComesToTheResult, AsksOnlyTheMissing};
ghost use Rattle.plain_expansion.specs.Expansion.{place_of, first_where};
ghost use Rattle.plain_expansion.specs.Laws.{RunsAreExpansions, EachCallRuns, GasIsFree, CarefulRunsAreExpansions, EachUnitIsAPoint, WatchedRunsKeepToIt, IsFirst, careful_expander, left_of, marked_of, quiet_of};

use crate::MacroLanguage;
use asking_core::World;

/// What a tree of questions has come to under some answers it comes to under more, and that is its result wherever each
/// answer is the one that was given.
pub fn more_answers_change_nothing<K, V, A>()
    ensures more { (tree : Asking K V A) → MoreChangesNothing tree }
    ensures result { (tree : Asking K V A) → ComesToTheResult tree }
{}

/// A tree of questions asks only what was not answered, and comes to its end if it is begun again with each answer,
/// whatever the answers are.
pub fn restarts_end<K, V, A>()
    ensures missing { (tree : Asking K V A) → AsksOnlyTheMissing tree }
    ensures end { (tree : Asking K V A) → RestartsEnd tree }
{}

/// Each plain run of the machine gives the plain expansion: its points, the world after, its cost, how it ended, its
/// deepest frame, and the frames at the statement for which fuel was wanting.
pub fn runs_are_expansions<L: MacroLanguage, W: World>()
    ensures { RunsAreExpansions L.language W.model }
{}

/// Each call has a plain run, from each state of the world, with any fuel, at any depth.
pub fn each_call_runs<L: MacroLanguage, W: World>()
    ensures { EachCallRuns L.language W.model }
{}

/// The number on which the definition recurs says nothing: any that is greater than the fuel gives one expansion.
pub fn gas_is_free<L: MacroLanguage, W: World>()
    ensures { GasIsFree L.language W.model }
{}

/// Each plain run of the machine that watches itself gives the plain expansion too.
pub fn careful_runs_are_expansions<L: MacroLanguage, W: World>()
    ensures { CarefulRunsAreExpansions L.language W.model }
{}

/// The machine that watches itself keeps the laws of machines: it falls between two counts, it has one item for a count
/// at most, and it is modest, whatever the language asks and puts.
pub fn the_watch_keeps_the_laws<L: MacroLanguage>()
    ensures falls { (full : ℕ) (moving writable : Tree → Bool) → Falls (careful_expander L.language full moving writable) (left_of L.language) }
    ensures emits_once { (full : ℕ) (moving writable : Tree → Bool) → EmitsOnceACount (careful_expander L.language full moving writable) (marked_of L.language) }
    ensures modest { (full : ℕ) (moving writable : Tree → Bool) → Modest (careful_expander L.language full moving writable) moving writable (quiet_of L.language) }
{}

/// The machine that watches itself gives up nowhere but where its laws would be broken: its runs are those of the machine in
/// which, in nested calls too, no more than so much is done without a unit of fuel, moving keys are asked only before
/// anything else is done, and only writable keys are put.
pub fn the_watch_gives_up_nowhere_else<L: MacroLanguage>()
    ensures { (full : ℕ) (moving writable : Tree → Bool) → WatchedRunsKeepToIt L.language full moving writable }
{}

/// Each unit of fuel is one point; an expansion takes no more than its fuel, all of it where fuel was wanting, and only
/// then are frames unpaid; and no frame stands deeper than the limit.
pub fn each_unit_is_a_point<L: MacroLanguage, W: World>()
    ensures { EachUnitIsAPoint L.language W.model }
{}

/// A branch goes to the first statement that has its label.
pub fn branches_go_to_the_first<S>()
    ensures { (holds : S → Bool) (list : List S) → IsFirst holds list (first_where holds list) }
{}
