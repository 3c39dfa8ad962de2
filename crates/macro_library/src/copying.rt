//! The lines after a prototype as they are read, with the members that are copied.
ghost use Rattle.std.specs.Prelude.{◌≡◌, ℕ, List, Option, [], ◌∷◌, ◌++◌, ◌<◌, false, length, IfOk, OnOk};
ghost use Rattle.macro_library.specs.declared.member.Member.{Member as ToldMember};
ghost use Rattle.macro_library.specs.Copying as copying;
ghost use Rattle.macro_library.specs.Definitions as definitions;
ghost use Rattle.macro_library.specs.Members as library;

use crate::DefFault;
use crate::line::{behind, copied};
use crate::member::{Member, Members};
use hl_base::{Name, OutOfMemory};
use indexmap::IndexMap;
use statement_listing::Line;
use std::alloc::Global;
use std::collections::VecDeque;
use std::mem;

/// How many statements a definition has at most behind its prototype.
const MOST_STATEMENTS: u32 = 65_536;

/// The lines that are left of a list.
#[derive(Drop)]
struct Left {
    lines: VecDeque<Line>,
}

/// What was read of a definition, and what is left.
#[derive(Drop)]
struct Copying {
    lines: Vec<Line>,
    /// For how many statements more there is room.
    room: u32,
    /// How many inner definitions are begun.
    begun: usize,
    current: Left,
    /// The members that are being copied, the outermost first, each with what is left of the list that copies it.
    outer: IndexMap<String, Left>,
    /// Whether a MEND ends the definition.
    ended: bool,
}

/// Whether there is more to read.
#[derive(Clone, Copy, Debug, PartialEq, Eq)]
enum Progress {
    Goes,
    Ends,
}

/// Lines to be read.
fn left_of(alloc: Global, lines: &[Line]) -> Result<Left, OutOfMemory>
    ensures { IfOk result (λ left. left.lines.items ≡ lines.now) }
{
    let mut left = VecDeque::with_capacity(alloc, lines.len())?;
    let mut more = lines;
    while let [line, rest @ ..] = more {
        left.push_back(line.share()?)?;
        more = rest;
    }
    Ok(Left { lines: left })
}

/// The member that a line copies where it stands in no inner definition.
fn copied_at(begun: usize, line: &Line) -> Option<Name>
    ensures { result ≡ definitions.copied_at begun line.now }
{
    if begun == 0 {
        return copied(line);
    }
    None
}

impl Copying {
    /// Nothing was read of these lines.
    fn new(alloc: Global, rest: &[Line], ended: bool) -> Result<Copying, OutOfMemory>
        ensures { IfOk result (copying.IsNew rest.now ended) }
    {
        let lines = Vec::new(alloc);
        let current = left_of(alloc, rest)?;
        let outer = IndexMap::new(alloc);
        Ok(Copying {
            lines,
            room: MOST_STATEMENTS,
            begun: 0,
            current,
            outer,
            ended,
        })
    }

    /// Keeps a line that is no COPY, and is counted.
    fn keep(&mut self, line: Line) -> Result<(), OutOfMemory>
        ensures { OnOk result (copying.Keeps self.old self.new line) }
    {
        self.begun = behind(self.begun, &line)?;
        self.lines.push(line)?;
        Ok(())
    }

    /// Whether a member is being copied.
    fn is_copying(&self, name: &Name) -> bool
        ensures value { result ≡ definitions.is_open (copying.names_in self.now) name.now }
        ensures shallow { length (copying.outer_of self.now) < definitions.deepest }
    {
        let _depth = self.outer.len();
        self.outer.contains_key(name.text())
    }

    /// Begins a member that is not being copied, with these lines.
    fn enter(&mut self, alloc: Global, name: &Name, lines: &[Line]) -> Result<(), OutOfMemory>
        requires { definitions.is_open (copying.names_in self.old) name.now ≡ false }
        ensures { OnOk result (copying.Enters self.old self.new name.now lines.now) }
    {
        let inside = left_of(alloc, lines)?;
        let key = String::from_str(alloc, name.text())?;
        let outside = mem::replace(&mut self.current, inside);
        self.outer.insert(key, outside)?;
        Ok(())
    }

    /// Copies a member. What an `Err` leaves is of no use.
    fn copy(&mut self, alloc: Global, members: &Members, name: Name) -> Result<(), DefFault>
        ensures { (operation : List ℕ) → copying.Copies (library.member_of members.now) operation self.old self.new name result }
    {
        if self.is_copying(&name) {
            return Err(DefFault::CopyCycle(name));
        }
        let Some(member) = members.get(&name) else {
            return Err(DefFault::Asks(name));
        };
        match member {
            Member::Absent => Err(DefFault::CopyAbsent(name)),
            Member::Unreadable => Err(DefFault::CopyUnreadable(name)),
            Member::File(file) => {
                self.enter(alloc, &name, file.list().lines())?;
                Ok(())
            }
        }
    }

    /// Takes in a line of the macro of this name. What an `Err` leaves is of no use.
    fn meet(
        &mut self,
        alloc: Global,
        members: &Members,
        operation: &Name,
        line: Line,
    ) -> Result<(), DefFault>
        ensures { copying.Meets (library.member_of members.now) operation.now self.old self.new line result }
    {
        if self.room == 0 {
            return Err(DefFault::TooLong(operation.copy()));
        }
        self.room -= 1;
        match copied_at(self.begun, &line) {
            Some(name) => self.copy(alloc, members, name),
            None => {
                self.keep(line)?;
                Ok(())
            }
        }
    }

    /// Goes back to the list outside the one that is read, of which nothing is left.
    fn back(&mut self) -> Progress
        requires { self.old.current.lines.items ≡ [] }
        ensures { (told : List ℕ → Option ToldMember) (operation : List ℕ) → copying.Goes_on told operation self.old self.new result }
    {
        match self.outer.pop() {
            Some((_name, left)) => {
                self.current = left;
                Progress::Goes
            }
            None => Progress::Ends,
        }
    }

    /// Goes on to the next line.
    fn step(
        &mut self,
        alloc: Global,
        members: &Members,
        operation: &Name,
    ) -> Result<Progress, DefFault>
        ensures { copying.Steps (library.member_of members.now) operation.now self.old self.new result }
    {
        match self.current.lines.pop_front() {
            Some(line) => match self.meet(alloc, members, operation, line) {
                Ok(()) => Ok(Progress::Goes),
                Err(fault) => Err(fault),
            },
            None => Ok(self.back()),
        }
    }

    /// The lines that were read, where a MEND ends the definition.
    fn end(self) -> Result<Vec<Line>, DefFault>
        ensures { copying.IsBody (copying.ended_with self.lines.items self.ended) result }
    {
        if self.ended {
            return Ok(self.lines);
        }
        Err(DefFault::NoMend)
    }

    /// Reads all that is left.
    fn finish(
        self,
        alloc: Global,
        members: &Members,
        operation: &Name,
    ) -> Result<Vec<Line>, DefFault>
        ensures { copying.IsBody (copying.comes (library.member_of members.now) operation.now self) result }
    {
        let mut copying = self;
        for _ in 0..u64::MAX {
            match copying.step(alloc, members, operation) {
                Ok(Progress::Goes) => {}
                Ok(Progress::Ends) => return copying.end(),
                Err(fault) => return Err(fault),
            }
        }
        Err(DefFault::OutOfMemory)
    }
}

/// The statements of the macro of a name, whose prototype stands before these lines, and whose definition a MEND ends or not;
/// or its first fault.
pub(crate) fn read_body(
    alloc: Global,
    members: &Members,
    operation: &Name,
    rest: &[Line],
    ended: bool,
) -> Result<Vec<Line>, DefFault>
    ensures { copying.IsBody (definitions.lines_met operation.now (definitions.met_behind members.now ended rest.now) definitions.most_statements) result }
{
    let copying = Copying::new(alloc, rest, ended)?;
    copying.finish(alloc, members, operation)
}
