//! What holds of every expression. The functions do nothing: their contracts are laws.
ghost use Rattle.std.specs.Prelude.{◌≡◌, ◌↔◌, ℕ, List, Ok, Err};
ghost use Rattle.expression_grammar.specs.declared.character.Grammar.{Grammar};
ghost use Rattle.expression_grammar.specs.declared.character.Grammar.TheVariants.{Arithmetic};
ghost use Rattle.expression_grammar.specs.Fronts.{IsClosed, IsFirst, IsNoFront, IsVariableClosed};
ghost use Rattle.expression_grammar.specs.Readings.{Front, read, read_front, read_variable};
ghost use Rattle.expression_grammar.specs.Spelling.{IsAt, IsExpression, Spells, most_parts};
ghost use Rattle.expression_grammar.specs.Trees.{Tree};

/// A text has one tree in a grammar.
pub fn one_tree()
    ensures { (grammar : Grammar) (text : List ℕ) (tree other : Tree) → Spells grammar text tree → Spells grammar text other → tree ≡ other }
{}

/// A text is read as the expression that it is, and else up to where no expression goes on.
pub fn reading()
    ensures tree { (grammar : Grammar) (text : List ℕ) (tree : Tree) → (read grammar text ≡ Ok tree) ↔ IsExpression (Spells grammar) most_parts text tree }
    ensures fault { (grammar : Grammar) (text : List ℕ) (count : ℕ) → (read grammar text ≡ Err count) ↔ IsAt (Spells grammar) most_parts text count }
{}

/// The front of a text is read that is an expression before a closing parenthesis, the first there is; and else the text up
/// to where no expression goes on.
pub fn fronts()
    ensures front { (grammar : Grammar) (text : List ℕ) (front : Front) →
        (read_front grammar text ≡ Ok front) ↔ IsFirst (IsClosed (Spells grammar) text) front.before front.tree }
    ensures fault { (grammar : Grammar) (text : List ℕ) (count : ℕ) →
        (read_front grammar text ≡ Err count) ↔ IsNoFront (Spells grammar) (IsClosed (Spells grammar) text) text count }
{}

/// The same of a variable symbol, whose last character the parenthesis is.
pub fn variable_fronts()
    ensures front { (text : List ℕ) (front : Front) → (read_variable text ≡ Ok front) ↔ IsFirst (IsVariableClosed text) front.before front.tree }
    ensures fault { (text : List ℕ) (count : ℕ) → (read_variable text ≡ Err count) ↔ IsNoFront (Spells Arithmetic) (IsVariableClosed text) text count }
{}
