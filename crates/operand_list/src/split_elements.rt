//! The elements of a sublist.
ghost use Rattle.std.specs.Prelude.{◌≡◌, ℕ, List, [], ◌∷◌, Option, IfOk, OnOk};
ghost use Rattle.std.specs.Str.{chars};
ghost use Rattle.operand_list.specs.SplitSublist as spec;

use crate::Operands;
use crate::split::Parting;
use hl_base::OutOfMemory;
use std::alloc::Global;

/// How far a sublist is read.
#[derive(Clone, Copy, Debug, PartialEq, Eq)]
enum Stage {
    /// Before its first character.
    Outside,
    /// Behind the parenthesis that opens it.
    Within,
    /// Behind the one that closes it.
    Closed,
    /// It is none.
    Broken,
}

/// A text that may be a sublist, as far as it is read.
#[derive(Drop)]
struct Sublist<'a> {
    stage: Stage,
    parting: Parting<'a>,
}

impl Sublist<'_> {
    ghost use Rattle.operand_list.specs.SplitSublist.{IsListed};

    /// Reads the next character.
    fn read(&mut self, alloc: Global, c: char) -> Result<(), OutOfMemory>
        ensures { OnOk result ((rest : List ℕ) (whole : Option (List (List ℕ))) → IsListed self.old.stage self.old.parting (c ∷ rest) whole
            → IsListed self.new.stage self.new.parting rest whole) }
    {
        match self.stage {
            Stage::Outside => self.begin(c),
            Stage::Within => self.go_on(alloc, c),
            Stage::Closed | Stage::Broken => {
                self.stage = Stage::Broken;
                Ok(())
            }
        }
    }

    fn begin(&mut self, c: char) -> Result<(), OutOfMemory>
        requires { self.old.stage ≡ Stage.Outside }
        ensures { OnOk result ((rest : List ℕ) (whole : Option (List (List ℕ))) → IsListed Stage.Outside self.old.parting (c ∷ rest) whole
            → IsListed self.new.stage self.new.parting rest whole) }
    {
        if c != '(' {
            self.stage = Stage::Broken;
            return Ok(());
        }
        self.parting.open(c)?;
        self.stage = Stage::Within;
        Ok(())
    }

    fn go_on(&mut self, alloc: Global, c: char) -> Result<(), OutOfMemory>
        requires { self.old.stage ≡ Stage.Within }
        ensures { OnOk result ((rest : List ℕ) (whole : Option (List (List ℕ))) → IsListed Stage.Within self.old.parting (c ∷ rest) whole
            → IsListed self.new.stage self.new.parting rest whole) }
    {
        if self.parting.closes(c)? {
            self.stage = Stage::Closed;
            return Ok(());
        }
        self.parting.read(alloc, 1, c)
    }

    /// The elements, where all of the text is read.
    fn close(self, alloc: Global) -> Result<Option<Operands>, OutOfMemory>
        ensures { IfOk result (λ found. (whole : Option (List (List ℕ))) → IsListed self.entry.stage self.entry.parting [] whole → found ≡ whole) }
    {
        match self.stage {
            Stage::Closed => Ok(Some(self.parting.close(alloc)?)),
            _ => Ok(None),
        }
    }
}

/// The elements of a sublist; `None` where the text is no sublist. An element may be a sublist again, and `()` has one
/// empty element (SC26-4940, "Sublists in operands").
pub fn split_sublist(alloc: Global, text: &str) -> Result<Option<Operands>, OutOfMemory>
    ensures { IfOk result (λ found. found ≡ spec.elements_of (chars text.now)) }
{
    let mut sublist = Sublist {
        stage: Stage::Outside,
        parting: Parting::new(alloc, text),
    };
    for c in text.chars() {
        sublist.read(alloc, c)?;
    }
    sublist.close(alloc)
}
