//! What the statements of a text are to its lines, in the user's words. Each law is the contract of a function that
//! does nothing.
ghost use Rattle.std.specs.Prelude.{◌≡◌, ℕ, List, length};
ghost use Rattle.std.specs.List.{AllByRecursion};
ghost use Rattle.hl_base.specs.Texts.{lines};
ghost use Rattle.hlasm_statements.specs.Columns.{groups};
ghost use Rattle.hlasm_statements.specs.Faults.{ends_marked};
ghost use Rattle.hlasm_statements.specs.Statements.{statements_of};
ghost use Rattle.hlasm_statements.specs.Laws.{FollowOn, GoesOnInside, EndBetween, last_group, lines_in};

/// Every line of a text belongs to exactly one statement, in order. The first statement begins at line 0, each begins
/// where the one before ended plus one, and the last ends at the text's last line.
pub fn every_line_is_in_one_statement()
    ensures lines { (all : List (List ℕ)) → lines_in (groups all) ≡ all }
    ensures numbers { (text : List ℕ) → FollowOn 0 (statements_of text) (length (lines text)) }
{}

/// In a statement every line but the last is marked, and a last line that is marked is the text's last line; there is
/// one way only to cut lines so.
pub fn marked_lines_go_on()
    ensures inside { (all : List (List ℕ)) → AllByRecursion GoesOnInside (groups all) }
    ensures between { (all : List (List ℕ)) → EndBetween (groups all) }
    ensures last { (all : List (List ℕ)) → ends_marked (last_group (groups all)) ≡ ends_marked all }
    ensures only { (all : List (List ℕ)) (cut : List (List (List ℕ))) → lines_in cut ≡ all
        → AllByRecursion GoesOnInside cut → EndBetween cut → cut ≡ groups all }
{}
