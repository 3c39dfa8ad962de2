//! What holds of every character expression. The functions do nothing: their contracts are laws.
ghost use Rattle.std.specs.Prelude.{◌≡◌, ◌↔◌, ℕ, List, Ok, Err};
ghost use Rattle.expression_grammar.specs.Spelling.{IsAt, IsExpression, most_parts};
ghost use Rattle.expression_grammar.specs.Trees.{Tree};
ghost use Rattle.character_grammar.specs.TextReadings.{read_text};
ghost use Rattle.character_grammar.specs.Texts.{SpellsText};

/// A text has one tree as a character expression.
pub fn one_text_tree()
    ensures { (text : List ℕ) (tree other : Tree) → SpellsText text tree → SpellsText text other → tree ≡ other }
{}

/// A text is read as the character expression that it is, and else up to where none goes on.
pub fn text_reading()
    ensures tree { (text : List ℕ) (tree : Tree) → (read_text text ≡ Ok tree) ↔ IsExpression SpellsText most_parts text tree }
    ensures fault { (text : List ℕ) (count : ℕ) → (read_text text ≡ Err count) ↔ IsAt SpellsText most_parts text count }
{}
