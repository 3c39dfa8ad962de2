//! The plain characters of a quoted text that is being read, and its items.
ghost use Rattle.std.specs.Prelude.{◌≡◌, [], ◌∷◌, ◌++◌, IfOk};
ghost use Rattle.character_grammar.specs.TextReading.{with_plain};
ghost use Rattle.expression_grammar.specs.Trees.{NoItems, NoTrees, Inserted};
ghost use Rattle.expression_grammar.specs.Views.{items_in, trees_in, with_item};

use expression_grammar::tree::{Expr, Item, Symbol};
use hl_base::{OutOfMemory, Text};
use std::alloc::Global;
use std::marker::Model;

/// Plain characters. Contracts see the list of them.
#[derive(Drop)]
pub struct Characters {
    content: String,
}

impl Model for Characters {
    ghost use Rattle.std.specs.Prelude.{ℕ, List, string_bytes};
    ghost use Rattle.std.specs.Str.{chars};

    ghost Value = { List ℕ };

    ghost view = { λ t. chars (string_bytes t.content) };
}

impl Characters {
    pub fn new(alloc: Global) -> Characters
        ensures { result ≡ [] }
    {
        Characters {
            content: String::new(alloc),
        }
    }

    /// With one character more.
    pub fn with(self, c: char) -> Result<Characters, OutOfMemory>
        ensures { IfOk result (λ t. t ≡ self ++ c ∷ []) }
    {
        let mut longer = self;
        longer.push(c)?;
        Ok(longer)
    }

    /// One character more, in place.
    pub fn push(&mut self, c: char) -> Result<(), OutOfMemory>
        ensures { IfOk result (λ _. self.new ≡ self.old ++ c ∷ []) }
    {
        self.content.push(c)?;
        Ok(())
    }

    fn text(&self, alloc: Global) -> Result<Text, OutOfMemory>
        ensures { IfOk result (λ t. t ≡ self.now) }
    {
        Text::of(alloc, self.content.as_str())
    }
}

/// The items, and the plain characters behind them as one more, if there is any.
#[tactic(auto, using(crate::proofs::TextStackLaws::items_in_push))]
pub fn with_characters(
    alloc: Global,
    items: Vec<Item>,
    plain: Characters,
) -> Result<Vec<Item>, OutOfMemory>
    ensures { IfOk result (λ all. items_in NoItems all.items ≡ with_plain (items_in NoItems items.items) plain) }
{
    let text = plain.text(alloc)?;
    if text.is_empty() {
        return Ok(items);
    }
    let mut all = items;
    all.push(Item::Plain(text))?;
    Ok(all)
}

fn inserted(symbol: Symbol, subscripts: Vec<Expr>) -> Item
    ensures { (before : _) → with_item before result ≡ Inserted before symbol (trees_in NoTrees subscripts.items) }
{
    Item::Inserted(symbol, subscripts)
}

/// The items, and a variable symbol as one more.
#[tactic(auto, using(crate::proofs::TextStackLaws::items_in_push))]
pub fn with_symbol(
    items: Vec<Item>,
    symbol: Symbol,
    subscripts: Vec<Expr>,
) -> Result<Vec<Item>, OutOfMemory>
    ensures { IfOk result (λ all. items_in NoItems all.items ≡ Inserted (items_in NoItems items.items) symbol (trees_in NoTrees subscripts.items)) }
{
    let mut all = items;
    all.push(inserted(symbol, subscripts))?;
    Ok(all)
}
