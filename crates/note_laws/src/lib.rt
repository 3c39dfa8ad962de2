//! What is said by the notes that `note_rows` does not build: each is the one that the table of notes makes of its row. The
//! functions do nothing: their contracts are laws on the definitions of `cond_expr`, `conditional_asm` and `hlasm_statements`, which
//! say what these crates' calls give, over the table of `note_rows`.
//!
//! So the table says the code, the severity and the text of every note: the crates that write out notes of their own can write
//! nothing but what stands there. This is the project's own.
#![tactic(auto)]

ghost use Rattle.std.specs.Prelude.{◌≡◌, ◌==◌, ℕ, List, [], if◌then◌else◌};
ghost use Rattle.hl_base.specs.declared.note.Severity.{Severity};
ghost use Rattle.hlasm_statements.specs.Faults.{code_of, severity_of};
ghost use Rattle.hlasm_statements.specs.declared.fault.ColumnFault.TheVariants as column;
ghost use Rattle.cond_expr.specs.Troubles as evaluation;
ghost use Rattle.conditional_asm.specs.Troubles as statement;
ghost use Rattle.note_rows.specs.Table.{line, noted};
ghost use Rattle.note_rows.specs.declared.row.Row.TheVariants as row;

/// The notes of the evaluation of an expression, each with an empty stack: those of a variable symbol, which come by the code of
/// its fault too, of a symbol, and of values.
pub fn evaluation_notes()
    ensures no_value { (name : List ℕ) → evaluation.no_value name ≡ noted (row.NoValue name) [] }
    ensures bad_subscript { (name : List ℕ) → evaluation.bad_subscript name ≡ noted (row.BadSubscript name) [] }
    ensures fault { (code : ℕ) (name : List ℕ) →
        evaluation.fault code name ≡ noted (if code == 22 then row.BadSubscript name else row.NoValue name) [] }
    ensures overflow { evaluation.overflow ≡ noted row.Overflow [] }
    ensures no_length { (symbol : List ℕ) → evaluation.no_length symbol ≡ noted (row.NoLength symbol) [] }
    ensures no_number { (name : List ℕ) → evaluation.no_number name ≡ noted (row.NoNumber name) [] }
    ensures outside { evaluation.outside ≡ noted row.OutsideText [] }
    ensures too_long { evaluation.too_long ≡ noted row.TextTooLong [] }
{}

/// The notes of a statement that is performed, each with an empty stack, and what its author says with MNOTE.
pub fn statement_notes()
    ensures no_operation { statement.no_operation ≡ noted row.NoOperation [] }
    ensures open_apostrophe { statement.open_apostrophe ≡ noted row.OpenApostrophe [] }
    ensures unreadable { (at : ℕ) → statement.unreadable at ≡ noted (row.Unreadable at) [] }
    ensures undefined { (operation : List ℕ) → statement.undefined operation ≡ noted (row.UndefinedOperation operation) [] }
    ensures left_out { (operation : List ℕ) → statement.left_out operation ≡ noted (row.LeftOutOperation operation) [] }
    ensures author { (severity : Severity) (words : List ℕ) → statement.author severity words ≡ noted (row.Author severity words) [] }
{}

/// The codes and severities of the faults of columns.
pub fn column_faults()
    ensures margin_text { (code_of column.MarginText ≡ (line row.MarginText).code) ×
        (severity_of column.MarginText ≡ (line row.MarginText).severity) }
    ensures surplus_lines { (code_of column.SurplusLines ≡ (line row.SurplusLines).code) ×
        (severity_of column.SurplusLines ≡ (line row.SurplusLines).severity) }
    ensures missing_line { (code_of column.MissingLine ≡ (line row.MissingLine).code) ×
        (severity_of column.MissingLine ≡ (line row.MissingLine).severity) }
{}
