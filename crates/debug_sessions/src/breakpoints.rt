//! The breakpoints of a session, by the texts of paths.
ghost use Rattle.std.specs.Prelude.{◌≡◌, ◌<◌, [], ◌∷◌, ◌++◌, position, slice_set, chars, OnOk, OnErr};
ghost use Rattle.std.specs.Vec.{vec_len};
ghost use Rattle.debug_sessions.specs.Launches.{has_path, with_lines};

use dap_messages::BreakLines;
use hl_base::{OutOfMemory, Text};
use std::alloc::Global;
use std::marker::Model;

/// The lines at which breakpoints are set in the file of a path, counted from 1.
#[derive(Drop)]
pub(crate) struct PathLines {
    pub(crate) path: Text,
    pub(crate) lines: BreakLines,
}

/// Breakpoints, by path. Contracts see the list.
#[derive(Drop)]
pub(crate) struct Breakpoints {
    settings: Vec<PathLines>,
}

impl Model for Breakpoints {
    ghost use Rattle.std.specs.Prelude.{List};
    ghost use Rattle.debug_sessions.specs.declared.breakpoints.PathLines.{PathLines};

    ghost Value = { List PathLines };

    ghost view = { λ b. b.settings.items };
}

/// Puts lines in the place of those of their path, or behind all others.
fn put(settings: &mut Vec<PathLines>, new: PathLines) -> Result<(), OutOfMemory>
    ensures put { OnOk result (settings.new.items ≡ with_lines new settings.old.items) }
    ensures refused { OnErr result (settings.new.items ≡ settings.old.items) }
{
    match place_of(settings.as_slice(), new.path.as_str()) {
        Some(at) => replace_at(settings, at, new),
        None => push_lines(settings, new)?,
    }
    Ok(())
}

/// Puts lines in place of those of a place.
fn replace_at(settings: &mut Vec<PathLines>, at: usize, new: PathLines)
    requires inside { at < vec_len settings.old }
    ensures { settings.new.items ≡ slice_set settings.old.items at new }
{
    settings[at] = new;
}

/// Puts lines behind all others.
fn push_lines(settings: &mut Vec<PathLines>, new: PathLines) -> Result<(), OutOfMemory>
    ensures pushed { OnOk result (settings.new.items ≡ settings.old.items ++ new ∷ []) }
    ensures refused { OnErr result (settings.new.items ≡ settings.old.items) }
{
    settings.push(new)?;
    Ok(())
}

/// Whether lines are those of a path.
fn is_of(setting: &PathLines, path: &str) -> bool
    ensures { result ≡ has_path (chars path.now) setting.now }
{
    setting.path.as_str() == path
}

/// The place of the lines of a path.
fn place_of(settings: &[PathLines], path: &str) -> Option<usize>
    ensures { result ≡ position (has_path (chars path.now)) settings.now }
{
    settings.iter().position(|setting| is_of(setting, path))
}

impl Breakpoints {
    /// None is set. It takes no memory.
    pub(crate) fn none(alloc: Global) -> Breakpoints
        ensures { result ≡ [] }
    {
        Breakpoints {
            settings: Vec::new(alloc),
        }
    }

    /// Breakpoints at these lines of a file, in place of those that it had. An `Err` changes nothing.
    pub(crate) fn set(&mut self, new: PathLines) -> Result<(), OutOfMemory>
        ensures set { OnOk result (self.new ≡ with_lines new self.old) }
        ensures refused { OnErr result (self.new ≡ self.old) }
    {
        put(&mut self.settings, new)
    }

    /// The lines by path.
    pub(crate) fn as_slice(&self) -> &[PathLines]
        ensures { result.now ≡ self.now }
    {
        self.settings.as_slice()
    }
}
