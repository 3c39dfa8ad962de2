//! Where bytes go.
ghost use Rattle.std.specs.Prelude.{ℕ, ◌<◌, ◌≤◌, List, Option, length, IfOk};
ghost use Rattle.io_edge.specs.Told.{Gains, counted, HasCause};

use crate::Failed;

/// A stream of bytes, put at its end.
pub trait Sink {
    /// The bytes held, if told.
    ghost held: { Self → Option (List ℕ) };

    /// How often a call was refused, or the greatest u64.
    ghost faults: { Self → ℕ };

    /// Puts bytes from the front of the piece and answers how many: at least one of a piece that has any. They are
    /// out of our hands when the call returns. A call that is refused puts nothing.
    fn put(&mut self, piece: &[u8]) -> Result<usize, Failed>
        ensures bound { IfOk result (λ n. n ≤ length piece.now) }
        ensures some { IfOk result (λ n. 0 < length piece.now → 0 < n) }
        ensures held { Gains (held self.old) (counted result piece.now) (held self.new) }
        ensures cause { HasCause (faults self.old) (faults self.new) result };
}
