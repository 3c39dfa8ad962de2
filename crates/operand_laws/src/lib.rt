//! What holds of operands as they are read. The functions do nothing: their contracts are laws on the definitions of
//! `machine_operands`, `conditional_fields` and `statement_reading`, which say what their calls give.
//!
//! The number that is told of an operand that cannot be read is what a user takes it for: so many of its characters a right operand
//! of its kind begins with, and with none more. Which operands are right is said here by their parts alone, as a grammar does. The
//! laws follow the HLASM Language Reference SC26-4940, "Operand entries", "Addresses", and for conditional assembly "COPY
//! instruction", "Sequence symbols", "GBLA, GBLB, and GBLC instructions", "AIF instruction", "Computed AGO instruction",
//! "MNOTE instruction".
#![tactic(auto)]

ghost use Rattle.std.specs.Prelude.{◌≡◌, ◌∷◌, ◌↔◌, ℕ, Bool, false, List, Err};
ghost use Rattle.hl_base.specs.declared.set.SetKind.{SetKind};
ghost use Rattle.instruction_table.specs.declared.encodings.Kind.{Kind};
ghost use Rattle.conditional_fields.specs.declared.front.Sought.TheVariants.{Condition, Number};
ghost use Rattle.conditional_fields.specs.Declarations.{declaration};
ghost use Rattle.conditional_fields.specs.Sequences.{sequence};
ghost use Rattle.character_grammar.specs.TextReadings.{read_text};
ghost use Rattle.machine_operands.specs.Forms.{form_of};
ghost use Rattle.machine_operands.specs.Operands.{begins_literal, operand, wrong};
ghost use Rattle.statement_reading.specs.Bodies.{member};
ghost use Rattle.statement_reading.specs.Branches.{choice, pair};
ghost use Rattle.statement_reading.specs.Messages.{severity};
ghost use Rattle.operand_laws.specs.Fields.{IsChoosing, IsDeclared, IsMessage, IsName, IsSequence, IsSeverity};
ghost use Rattle.operand_laws.specs.Right.{IsLongest, IsRight};

/// An operand without literal cannot be read exactly where it is no right operand of its kind, and then the longest text that it
/// and some right operand begin with has so many characters.
pub fn wrong_operands()
    ensures { (kind : Kind) (targets : Bool) (text : List ℕ) (count : ℕ) → begins_literal text ≡ false →
        ((operand kind targets text).written ≡ wrong count) ↔ IsLongest (IsRight (form_of kind)) text count }
{}

/// The same of the operand of a COPY, whose right ones are the names of members, where it has no ampersand.
pub fn wrong_members()
    ensures { (text : List ℕ) (count : ℕ) → (member text ≡ Err count) ↔ IsLongest IsName text count }
{}

/// The same of sequence symbols: the operand of an AGO, and those of a computed one behind the first.
pub fn wrong_labels()
    ensures { (text : List ℕ) (count : ℕ) → (sequence text ≡ Err count) ↔ IsLongest IsSequence text count }
{}

/// The same of the operands of GBLx and LCLx.
pub fn wrong_declarations()
    ensures { (kind : SetKind) (global : Bool) (text : List ℕ) (count : ℕ) → (declaration kind global text ≡ Err count) ↔ IsLongest IsDeclared text count }
{}

/// The same of the operands of AIF, and of the first one of a computed AGO, which begins with a parenthesis (40).
pub fn wrong_choices()
    ensures aif { (text : List ℕ) (count : ℕ) → (pair text ≡ Err count) ↔ IsLongest (IsChoosing Condition) text count }
    ensures ago { (rest : List ℕ) (count : ℕ) → (choice Number (40 ∷ rest) ≡ Err count) ↔ IsLongest (IsChoosing Number) (40 ∷ rest) count }
{}

/// The same of the severity of an MNOTE, and of its message.
pub fn wrong_messages()
    ensures severity { (text : List ℕ) (count : ℕ) → (severity text ≡ Err count) ↔ IsLongest IsSeverity text count }
    ensures message { (text : List ℕ) (count : ℕ) → (read_text text ≡ Err count) ↔ IsLongest IsMessage text count }
{}
