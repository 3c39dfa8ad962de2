//! What is true of all answers.
ghost use Rattle.std.specs.Prelude.{◌≡◌, ◌↔◌, ℕ, Bool, true, List, Some, None, All, Contains};
ghost use Rattle.std.specs.List.Sorted.{IsPermutation, IsSorted};
ghost use Rattle.hl_base.specs.declared.edit.Position.{Position};
ghost use Rattle.document_store.specs.Store.{Store};
ghost use Rattle.lsp_messages.specs.declared.outgoing.SymbolAnswer.TheVariants.{Nothing};
ghost use Rattle.trace_values.specs.declared.occurrence.Entity.{Entity};
ghost use Rattle.trace_values.specs.declared.occurrence.Occurrence.{Occurrence};
ghost use Rattle.trace_values.specs.declared.section.Section.{Section};
ghost use Rattle.trace_values.specs.declared.symbol_row.SymbolRow.{SymbolRow};
ghost use Rattle.symbol_answers.specs.Answers.{hover as what_is_said};
ghost use Rattle.symbol_answers.specs.Entities.{is_same_entity};
ghost use Rattle.symbol_answers.specs.Order.{Spot, spot_order, in_order};
ghost use Rattle.symbol_answers.specs.Questions.{asked, definition_of, references_of};

/// The spots in order are the only sorted list of them. It does nothing; its contract is the claim.
pub fn order_of_spots_is_unique()
    ensures { (spots sorted : List Spot) → IsPermutation spots sorted → IsSorted spot_order sorted → in_order spots ≡ sorted }
{}

/// Each reference to something names it, and where it is defined first is one of its references, if declarations are wanted.
/// It does nothing; its contract is the claim.
pub fn references_name_the_same()
    ensures named { (occurrences : List Occurrence) (entity : Entity) (declarations : Bool)
        → All (λ one. is_same_entity one.entity entity ≡ true) (references_of occurrences entity declarations) }
    ensures defined { (occurrences : List Occurrence) (entity : Entity) (first : Occurrence) → definition_of occurrences entity ≡ Some first
        → Contains (references_of occurrences entity true) first }
{}

/// Nothing is said of a position exactly where no occurrence is meant. It does nothing; its contract is the claim.
pub fn something_is_said_of_each_occurrence()
    ensures { (rows : List SymbolRow) (sections : List Section) (store : Store) (occurrences : List Occurrence) (path : ℕ) (at : Position)
        → (what_is_said rows sections store occurrences path at ≡ Nothing) ↔ (asked store occurrences path at ≡ None) }
{}
