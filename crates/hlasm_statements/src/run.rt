//! Columns side by side.
ghost use Rattle.std.specs.Prelude.{◌≡◌, ◌<◌, ◌≤◌, ◌+◌, ◌-◌};

/// Columns side by side in a line: from one on, up to another that is not among them.
#[derive(Clone, Copy)]
pub struct Run {
    pub line: u32,
    pub from: u32,
    pub to: u32,
    ghost ordered: { from ≤ to },
}

impl Run {
    /// No column.
    pub fn none() -> Run
        ensures { result.to ≡ result.from }
    {
        Run {
            line: 0,
            from: 0,
            to: 0,
        }
    }

    /// The line of the column with this number, from 0, and the column. Past the last one the answer is of no use.
    pub fn at(self, index: u32) -> (u32, u32)
        ensures { index < self.to - self.from → result ≡ (self.line, self.from + index) }
    {
        if index < self.to - self.from {
            (self.line, self.from + index)
        } else {
            (self.line, self.to)
        }
    }
}
