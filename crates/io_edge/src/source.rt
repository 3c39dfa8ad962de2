//! Where bytes come from.
ghost use Rattle.std.specs.Prelude.{◌≡◌, ℕ, ◌<◌, ◌≤◌, List, Bool, Option, Ok, length, drop, IfOk, IfSome};
ghost use Rattle.std.specs.Option.{option_map};
ghost use Rattle.io_edge.specs.Told.{Gives, counted, IsAtEnd, HasCause, first_wait};

use crate::Failed;

/// A stream of bytes, taken once from its front.
pub trait Source {
    /// The bytes not yet taken, if told.
    ghost left: { Self → Option (List ℕ) };

    /// The answers still to come of `waiting`, if told.
    ghost waits: { Self → Option (List Bool) };

    /// How often a call was refused, or the greatest u64.
    ghost faults: { Self → ℕ };

    /// Takes the next bytes into the front of the buffer and answers how many; 0 for a buffer that has room is the
    /// end. A call that is refused takes nothing.
    fn take(&mut self, buf: &mut [u8]) -> Result<usize, Failed>
        ensures bound { IfOk result (λ n. n ≤ length buf.old) }
        ensures given { Gives (left self.old) (counted result buf.new) (left self.new) }
        ensures end { result ≡ Ok 0 → 0 < length buf.old → IsAtEnd (left self.old) }
        ensures waits { waits self.new ≡ waits self.old }
        ensures cause { HasCause (faults self.old) (faults self.new) result };

    /// Whether more bytes are there already, so that a reader would not wait.
    fn waiting(&mut self) -> bool
        ensures answer { IfSome (waits self.old) (λ answers. result ≡ first_wait answers) }
        ensures rest { waits self.new ≡ option_map (drop 1) (waits self.old) }
        ensures left { left self.new ≡ left self.old }
        ensures faults { faults self.new ≡ faults self.old };
}
