//! What holds of every logical expression. The functions do nothing: their contracts are laws.
ghost use Rattle.std.specs.Prelude.{◌≡◌, ◌↔◌, ℕ, List, Ok, Err};
ghost use Rattle.expression_grammar.specs.Fronts.{IsClosed, IsFirst, IsNoFront};
ghost use Rattle.expression_grammar.specs.Readings.{Front};
ghost use Rattle.expression_grammar.specs.Spelling.{IsAt, IsExpression, most_parts};
ghost use Rattle.expression_grammar.specs.Trees.{Tree};
ghost use Rattle.logical_grammar.specs.LogicReadings.{read_logic, read_logic_front};
ghost use Rattle.logical_grammar.specs.Logics.{SpellsLogic};

/// A text has one tree as a logical expression.
pub fn one_logic_tree()
    ensures { (text : List ℕ) (tree other : Tree) → SpellsLogic text tree → SpellsLogic text other → tree ≡ other }
{}

/// A text is read as the logical expression that it is, and else up to where none goes on.
pub fn logic_reading()
    ensures tree { (text : List ℕ) (tree : Tree) → (read_logic text ≡ Ok tree) ↔ IsExpression SpellsLogic most_parts text tree }
    ensures fault { (text : List ℕ) (count : ℕ) → (read_logic text ≡ Err count) ↔ IsAt SpellsLogic most_parts text count }
{}

/// The front of a text is read that is a logical expression before a closing parenthesis, the first there is; and else the
/// text up to where no logical expression goes on.
pub fn logic_fronts()
    ensures front { (text : List ℕ) (front : Front) → (read_logic_front text ≡ Ok front) ↔ IsFirst (IsClosed SpellsLogic text) front.before front.tree }
    ensures fault { (text : List ℕ) (count : ℕ) → (read_logic_front text ≡ Err count) ↔ IsNoFront SpellsLogic (IsClosed SpellsLogic text) text count }
{}
