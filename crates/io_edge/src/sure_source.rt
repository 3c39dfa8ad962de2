//! A source that holds its bytes and never fails.
ghost use Rattle.std.specs.Prelude.{◌≡◌, ℕ, ◌<◌, ◌≤◌, Ok, length, take, drop, IfOk, IfSome, All};
ghost use Rattle.std.specs.Option.{option_map};
ghost use Rattle.io_edge.specs.Told.{Gives, counted, overwritten, IsAtEnd, HasCause, first_wait};

use crate::{Failed, MemorySource, Source};
use std::alloc::Global;
use std::marker::Model;

/// A source that holds its bytes and gives them in pieces of set sizes, of which no take fails. Contracts see what it
/// holds.
#[derive(Drop)]
pub struct SureSource {
    held: MemorySource,
}

impl Model for SureSource {
    ghost use Rattle.std.specs.Prelude.{◌≡◌, []};
    ghost use Rattle.io_edge.specs.SureForms.{Stock};

    ghost Value = { Stock };

    ghost view = { λ s. record {
      bytes = s.held.bytes;
      sizes = s.held.sizes;
      answers = s.held.answers;
    } };

    ghost invariant = { λ s. record {
      none_fails : s.held.failing ≡ [];
      none_failed : s.held.refusals ≡ 0;
    } };
}

impl SureSource {
    ghost use Rattle.io_edge.specs.SureForms.{Stock};

    /// A source of these bytes. A take gives at most the next of the sizes, from the first again when they are used
    /// up; no size sets no limit. `waiting` answers what is listed and then `false`.
    pub fn new(alloc: Global, bytes: Vec<u8>, sizes: Vec<usize>, waiting: Vec<bool>) -> SureSource
        requires { All (λ size. 0 < size) sizes.items }
        ensures { result ≡ record { bytes = bytes.items; sizes = sizes.items; answers = waiting.items } }
    {
        SureSource {
            held: MemorySource::new(bytes, sizes, waiting, Vec::new(alloc)),
        }
    }

    /// The bytes not yet taken.
    pub fn rest(&self) -> &[u8]
        ensures { result.now ≡ self.now.bytes }
    {
        self.held.rest()
    }
}

impl Source for SureSource {
    ghost use Rattle.std.specs.Prelude.{Some};
    ghost use Rattle.io_edge.specs.SureForms.{Stock, stock_len, after_stock};

    ghost left = { λ s. Some s.bytes };

    ghost waits = { λ s. Some s.answers };

    ghost faults = { λ _. 0 };

    fn take(&mut self, buf: &mut [u8]) -> Result<usize, Failed>
        ensures bound { IfOk result (λ n. n ≤ length buf.old) }
        ensures given { Gives (Some self.old.bytes) (counted result buf.new) (Some self.new.bytes) }
        ensures end { result ≡ Ok 0 → 0 < length buf.old → IsAtEnd (Some self.old.bytes) }
        ensures waits { Some self.new.answers ≡ Some self.old.answers }
        ensures cause { HasCause 0 0 result }

        ensures count { result ≡ Ok (stock_len self.old (length buf.old)) }
        ensures buffer { buf.new ≡ overwritten (counted result self.old.bytes) buf.old }
        ensures after { self.new ≡ after_stock self.old (stock_len self.old (length buf.old)) }
    {
        self.held.take(buf)
    }

    fn waiting(&mut self) -> bool
        ensures answer { IfSome (Some self.old.answers) (λ answers. result ≡ first_wait answers) }
        ensures rest { Some self.new.answers ≡ option_map (drop 1) (Some self.old.answers) }
        ensures left { Some self.new.bytes ≡ Some self.old.bytes }

        ensures after { self.new ≡ record self.old { answers = drop 1 self.old.answers } }
    {
        self.held.waiting()
    }
}
