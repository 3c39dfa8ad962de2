//! What is said of the library in the log.
ghost use Rattle.std.specs.Prelude.{◌≡◌, IfOk, OnOk};
ghost use Rattle.std.specs.Str.{chars};
ghost use Rattle.library_reading.specs.Log.{empty_log, line_of, said, said_full, without_lines};

use hl_base::{OutOfMemory, Text};
use std::alloc::Global;
use std::marker::Model;

/// Lines for the log of a message, in order. Contracts see its `Log`. It remembers whether it was said that the library is too
/// large, also once the lines are taken for output, so one of these serves a whole message.
#[derive(Drop)]
pub struct Logs {
    lines: Vec<Text>,
    full: bool,
}

impl Model for Logs {
    ghost use Rattle.library_reading.specs.Log.{Log};

    ghost Value = { Log };

    ghost view = { λ s. record { lines = s.lines.items; full = s.full } };
}

/// A line of the log: a path, and what is said of it.
fn line(alloc: Global, path: &str, why: &str) -> Result<Text, OutOfMemory>
    ensures { IfOk result (λ text. text ≡ line_of (chars path.now) (chars why.now)) }
{
    let mut line = Text::of(alloc, path)?;
    line.push_str(": ")?;
    line.push_str(why)?;
    Ok(line)
}

impl Logs {
    /// Before anything is said. It takes no memory.
    pub fn new(alloc: Global) -> Logs
        ensures { result ≡ empty_log }
    {
        Logs {
            lines: Vec::new(alloc),
            full: false,
        }
    }

    /// The lines, each without its end.
    pub fn lines(&self) -> &[Text]
        ensures { result.now ≡ self.now.lines }
    {
        self.lines.as_slice()
    }

    /// Takes the lines away, once they are in the output.
    pub fn clear(&mut self)
        ensures { self.new ≡ without_lines self.old }
    {
        self.lines.clear();
    }

    /// Says something of a path.
    pub(crate) fn say(&mut self, alloc: Global, path: &str, why: &str) -> Result<(), OutOfMemory>
        ensures { OnOk result (self.new ≡ said self.old (chars path.now) (chars why.now)) }
    {
        self.lines.push(line(alloc, path, why)?)?;
        Ok(())
    }

    /// Says that the library is too large, unless it was said.
    pub(crate) fn say_full(&mut self, alloc: Global) -> Result<(), OutOfMemory>
        ensures { OnOk result (self.new ≡ said_full self.old) }
    {
        if self.full {
            return Ok(());
        }
        self.lines
            .push(Text::of(alloc, "library: LibraryTooLarge")?)?;
        self.full = true;
        Ok(())
    }
}
