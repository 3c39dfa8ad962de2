//! What holds of the operand field of every statement, and of the operands that it falls into. The functions do nothing: their
//! contracts are laws on the definitions of `hlasm_statements`, `conditional_fields` and `operand_list`, which say what these
//! crates' calls give. The laws follow the HLASM Language Reference SC26-4940, "Operand entry" and "Alternate format for
//! continuation lines".
#![tactic(auto)]

ghost use Rattle.std.specs.Prelude.{◌≡◌, ◌↔◌, ◌+◌, ℕ, Bool, true, false, List, [], ◌∷◌, ◌++◌, None, codes, length};
ghost use Rattle.std.specs.List.{join_with_byte};
ghost use Rattle.hlasm_statements.specs.Columns.{Placed, placed, text_of};
ghost use Rattle.hlasm_statements.specs.Fields.{operand_field};
ghost use Rattle.conditional_fields.specs.Endings.{ended};
ghost use Rattle.operand_list.specs.Split.{operands_of};
ghost use Rattle.field_laws.specs.Fronts.{IsFrontOf, AreFrontsOf};
ghost use Rattle.field_laws.specs.Separators.{separators};

/// The operand field in the standard format is the front of what stands behind the operation, up to the first blank outside
/// quotes, and, where parentheses keep their blanks, outside parentheses. In the alternate format it is such fronts of the
/// lines, one behind the other: behind each but the last the field so far ends in a comma, and the rest of the line is remarks.
pub fn operand_fields()
    ensures standard { (keeps : Bool) (source field : List Placed) → (field ≡ operand_field false keeps None [] source) ↔ IsFrontOf keeps source field }
    ensures alternate { (keeps : Bool) (source field : List Placed) → (field ≡ operand_field true keeps None [] source) ↔ AreFrontsOf keeps source field }
{}

/// Where an operand field ends is defined twice: over the characters of a statement, each with its place (`operand_field`), and
/// over the characters of a text alone, in which variable symbols may have got their values (`ended`). Both go on after any
/// characters of the field. If parentheses do not keep their blanks, the two are one: for every source in the standard format,
/// and for a source of one line in either format; and a field that was read from a statement in either format is the whole field
/// again. In all other cases the second is a front of the first, and may be a shorter one: it ends at every blank outside quotes,
/// also within parentheses that keep their blanks, and knows of no next line.
pub fn generated_fields()
    ensures standard { (before : List ℕ) (source : List Placed) →
        text_of (operand_field false false None before source) ≡ ended before (text_of source) }
    ensures one_line { (alternate : Bool) (line column : ℕ) (before text : List ℕ) →
        text_of (operand_field alternate false None before (placed line column text)) ≡ ended before text }
    ensures settled { (alternate : Bool) (before : List ℕ) (source : List Placed) →
        let field = operand_field alternate false None before source in ended before (text_of field) ≡ text_of field }
    ensures front { (alternate keeps : Bool) (before : List ℕ) (source : List Placed) →
        (more : List ℕ) × (text_of (operand_field alternate keeps None before source) ≡ ended before (text_of source) ++ more) }
    ensures groups { (text_of (operand_field false true None [] (placed 0 1 (codes "(A B)"))) ≡ codes "(A B)") ×
        (ended [] (codes "(A B)") ≡ codes "(A") }
    ensures lines { (text_of (operand_field true false None [] (placed 0 1 (codes "A, ") ++ placed 1 16 (codes "B"))) ≡ codes "A,B") ×
        (ended [] (codes "A, B") ≡ codes "A,") }
{}

/// The operands of a field, joined by commas, are the field, and they are one more than the commas outside quotes and
/// parentheses.
pub fn operands()
    ensures joined { (text : List ℕ) → join_with_byte 44 (operands_of text) ≡ text }
    ensures count { (c : ℕ) (rest : List ℕ) → length (operands_of (c ∷ rest)) ≡ separators [] (c ∷ rest) + 1 }
{}
