//! What holds of what is read. The functions do nothing: their contracts are laws.
ghost use Rattle.std.specs.Prelude.{◌≡◌, ◌==◌, ◌↔◌, ℕ, true, false, List, map, Some, None, Result, Ok, Err, slice_index};
ghost use Rattle.expression_grammar.specs.declared.fault.SyntaxFault.{SyntaxFault};
ghost use Rattle.expression_grammar.specs.Trees.{Tree};
ghost use Rattle.conditional_fields.specs.declared.branch.Goto.{Goto};
ghost use Rattle.conditional_fields.specs.declared.branch.Selector.{Selector};
ghost use Rattle.conditional_fields.specs.declared.front.Sought.TheVariants.{Condition, Number};
ghost use Rattle.conditional_fields.specs.declared.template.Piece.{Piece};
ghost use Rattle.conditional_fields.specs.Branches.{IsGoto, IsChoiceRead};
ghost use Rattle.conditional_fields.specs.Templates.{HasNoSymbolWith, IsSymbol, IsTemplate, IsUnreadable, has_subscripts};
ghost use Rattle.conditional_fields.specs.Answers.{Says};
ghost use Rattle.statement_reading.specs.Branches as branches;
ghost use Rattle.statement_reading.specs.Symbols as symbols;
ghost use Rattle.statement_reading.specs.Templates as templates;
ghost use Rattle.statement_reading.specs.Views.{branch_of, choice_of, part_of};

/// The variable symbol that a text begins with is read, and none where it begins with none.
pub fn symbols()
    ensures found { (text : List ℕ) (count : ℕ) (tree : Tree) → (symbols.symbol text ≡ Some (record { tree = tree; count = count })) ↔ IsSymbol text count tree }
    ensures none { (text : List ℕ) → (symbols.symbol text ≡ None) ↔ HasNoSymbolWith (has_subscripts text) text }
{}

/// A field that is written as some pieces is read as their parts; one that cannot be read goes wrong where it does; and one
/// without an ampersand is one part, or none where it has no character.
pub fn templates()
    ensures parts { (field : List ℕ) (pieces : List Piece) → IsTemplate field pieces → templates.template field ≡ Ok (map part_of pieces) }
    ensures fault { (field : List ℕ) (at : ℕ) → IsUnreadable field at → templates.template field ≡ Err at }
    ensures plain { (text : List ℕ) → templates.has_ampersand text ≡ false → templates.template text ≡ Ok (templates.plain_parts text) }
{}

/// What is read of a number, or a condition, in parentheses and a sequence symbol stands there, or goes wrong there.
pub fn choices()
    ensures number { (operand : List ℕ) → branches.IsChosen Number operand (branches.choice Number operand) }
    ensures condition { (operand : List ℕ) → branches.IsChosen Condition operand (branches.choice Condition operand) }
{}

/// The operand field of AGO and an operand of AIF are read as they are written, or go wrong where they do.
pub fn branches()
    ensures goto { (field : List ℕ) (answer : Result Goto SyntaxFault) → IsGoto field answer → Says branch_of (branches.goto field) answer }
    ensures pair { (operand : List ℕ) (answer : Result Selector SyntaxFault) → (slice_index operand 0 == 40) ≡ true → IsChoiceRead Condition operand answer →
        Says choice_of (branches.pair operand) answer }
{}
