//! A world in memory.
ghost use Rattle.std.specs.Prelude.{◌≡◌, ◌%◌};
ghost use Rattle.kept_values.specs.Trees.{Leaf};
ghost use Rattle.asking_core.specs.Counters.{round};
ghost use Rattle.example_language.specs.World.{round_cells};

use crate::{Question, Value};
use asking_core::World;
use hl_base::OutOfMemory;
use std::alloc::Global;

/// One value, how many calls were counted, how deep the call stands, and the number of the outermost statement that is
/// processed. The counters go round at 2^32.
#[derive(Clone, Copy)]
pub struct Cells {
    pub value: u32,
    pub calls: u32,
    pub depth: u32,
    pub at: u32,
}

impl Cells {
    /// All is 0.
    pub fn new() -> Cells
        ensures { result ≡ record { value = 0; calls = 0; depth = 0; at = 0 } }
    {
        Cells {
            value: 0,
            calls: 0,
            depth: 0,
            at: 0,
        }
    }
}

/// A counter as a number that goes round.
fn gone_round(number: u32) -> u32
    ensures { result ≡ number % 4294967296 }
{
    number
}

impl World for Cells {
    type Key = Question;

    type Value = Value;

    ghost model = { round_cells };

    ghost state = { λ w. record { value = Leaf w.value; calls = round w.calls; depth = round w.depth; at = w.at } };

    fn ask(&mut self, _alloc: Global, key: &Self::Key) -> Result<Self::Value, OutOfMemory> {
        let number = match key {
            Question::Value => self.value,
            Question::Calls => gone_round(self.calls),
        };
        Ok(Value { number })
    }

    fn put(
        &mut self,
        _alloc: Global,
        _key: Self::Key,
        value: Self::Value,
    ) -> Result<(), OutOfMemory> {
        self.value = value.number;
        Ok(())
    }

    fn bump(&mut self, calls: u32) {
        self.calls = self.calls.wrapping_add(calls);
    }

    fn enter(&mut self) {
        self.depth = self.depth.wrapping_add(1);
    }

    fn leave(&mut self) {
        self.depth = self.depth.wrapping_add(u32::MAX);
    }

    fn at(&mut self, statement: u32) {
        self.at = statement;
    }
}
