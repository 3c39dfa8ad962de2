//! A macro language in code.
ghost use Rattle.std.specs.Prelude.{◌≡◌, ℕ, Bool, List, ◌∷◌, map, reverse, IfOk, OnOk, option_map, slice_get, is_some};
ghost use Rattle.kept_values.specs.Trees.{Tree, look_up};
ghost use Rattle.asking_core.specs.Places.{pairs_of};
ghost use Rattle.plain_expansion.specs.Questions.{led_by};
ghost use Rattle.plain_expansion.specs.Language.{Language};
ghost use Rattle.plain_expansion.specs.Expansion.{first_where};
ghost use Rattle.expansion_step.specs.Meaning.{Reads, Means, meaning, stack_by, level_by, performed_by, fault_by, point_by};

use crate::{Fault, Level, Performed, Stack};
use asking_core::Noted;
use hl_base::OutOfMemory;
use kept_values::Kept;
use std::alloc::Global;

/// A language that is given in code. What its calls answer is fixed by its type and their arguments.
pub trait CodedLanguage {
    type Key: Kept;

    type Value: Kept;

    type Call: Kept;

    type Listing: Drop;

    type Label: Drop;

    type Known: Drop;

    type Change: Drop;

    type Said: Drop;

    type Item: Drop;

    type Frames: Drop;

    /// The language, and what its values mean in it. A call is read from its tree, so that equal calls are one.
    ghost language: { Language };

    ghost reads: { Reads language Self.Listing Self.Label Self.Known Self.Change Self.Said Self.Item };

    ghost call_of: { Tree → (language).words.Call };

    ghost frames_of: { Self.Frames → (language).Frames };

    /// The keys whose answers counting and entering calls may change, those that may be put, and an answer taken back from
    /// just within a nested call to the start of its caller.
    ghost moving: { Tree → Bool };

    ghost writable: { Tree → Bool };

    ghost rebased: { Tree → Tree → ℕ → Tree };

    /// The list that a call processes.
    fn listing(&self, alloc: Global, call: &Self::Call) -> Result<Self::Listing, OutOfMemory>
        ensures { IfOk result (λ l. (reads).listing l ≡ (language).listing_of (call_of (Self.Call.code call.now))) };

    /// Whether a call is open code.
    fn is_open_code(&self, call: &Self::Call) -> bool
        ensures { result ≡ (language).is_open_code (call_of (Self.Call.code call.now)) };

    /// The keys that a call asks at its entry.
    fn entry_keys(&self, alloc: Global, call: &Self::Call) -> Result<Vec<Self::Key>, OutOfMemory>
        ensures { IfOk result (λ ks. map Self.Key.code ks.items ≡ (language).entry_keys (call_of (Self.Call.code call.now))) };

    /// What a call knows at its start, by the answers to these keys.
    fn bind(
        &self,
        alloc: Global,
        call: &Self::Call,
        answers: &[Noted<Self::Key, Self::Value>],
    ) -> Result<Self::Known, OutOfMemory>
        ensures { IfOk result (λ k. (reads).known k
            ≡ (language).bound (call_of (Self.Call.code call.now)) (pairs_of Self.Key.code Self.Value.code answers.now)) };

    /// Whether a list has a statement at this place.
    fn has_statement(&self, here: &Level<Self::Listing>) -> bool
        ensures { result ≡ is_some (slice_get ((language).statements_of ((reads).listing here.now.listing)) here.now.position) };

    /// The place of the first statement of a list that has this label.
    fn place_of(&self, listing: &Self::Listing, label: &Self::Label) -> Option<u32>
        ensures { result ≡ first_where (λ s. (language).has_label s ((reads).label label.now))
            ((language).statements_of ((reads).listing listing.now)) };

    /// How far the answers lead the statement at this place, for a call that knows so much.
    fn perform(
        &self,
        alloc: Global,
        here: &Level<Self::Listing>,
        known: &Self::Known,
        answers: &[Noted<Self::Key, Self::Value>],
    ) -> Result<
        Performed<
            Self::Listing,
            Self::Label,
            Self::Change,
            Self::Said,
            Self::Call,
            Self::Key,
            Self::Value,
        >,
        OutOfMemory,
    >
        ensures { IfOk result (λ p. performed_by (meaning reads call_of Self.Call.code Self.Key.code Self.Value.code)
            ((reads).known known.now) p ≡ option_map
            (λ s. led_by (look_up (pairs_of Self.Key.code Self.Value.code answers.now))
            ((language).effect_of s ((reads).known known.now)))
            (slice_get ((language).statements_of ((reads).listing here.now.listing)) here.now.position)) };

    /// Makes this change of what is known.
    fn change(
        &self,
        alloc: Global,
        known: &mut Self::Known,
        change: Self::Change,
    ) -> Result<(), OutOfMemory>
        ensures { OnOk result ((reads).known known.new ≡ (reads).changed change ((reads).known known.old)) };

    /// What is kept of a point: where its call was, what is said of it, and what went wrong.
    fn item(
        &self,
        alloc: Global,
        stack: &Stack<Self::Listing, Self::Known>,
        said: Self::Said,
        fault: Fault,
    ) -> Result<Self::Item, OutOfMemory>
        ensures { IfOk result (λ i. (reads).item i
            ≡ (language).item_of (point_by (meaning reads call_of Self.Call.code Self.Key.code Self.Value.code) stack.now said
            (fault_by fault))) };

    /// The frames of a call at this place of its innermost list, with the lists that copied it, outermost first.
    fn frames(
        &self,
        alloc: Global,
        here: &Level<Self::Listing>,
        below: &[Level<Self::Listing>],
    ) -> Result<Self::Frames, OutOfMemory>
        ensures { IfOk result (λ f. frames_of f
            ≡ (language).frames_of (level_by (meaning reads call_of Self.Call.code Self.Key.code Self.Value.code) here.now ∷ reverse
            (map (level_by (meaning reads call_of Self.Call.code Self.Key.code Self.Value.code)) below.now))) };

    /// Whether counting and entering calls may change the answer to a key.
    fn is_moving(&self, key: &Self::Key) -> bool
        ensures { result ≡ moving (Self.Key.code key.now) };

    /// Whether a key may be put.
    fn is_writable(&self, key: &Self::Key) -> bool
        ensures { result ≡ writable (Self.Key.code key.now) };

    /// A value of a key just within a nested call, where the caller had counted so many calls, that one included, as the
    /// value at the caller's start.
    fn rebase(
        &self,
        alloc: Global,
        key: &Self::Key,
        value: &Self::Value,
        calls: u32,
    ) -> Result<Self::Value, OutOfMemory>
        ensures { IfOk result (λ v. Self.Value.code v ≡ rebased (Self.Key.code key.now) (Self.Value.code value.now) calls) };
}
