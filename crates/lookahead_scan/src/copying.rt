//! What a COPY in open code gives: the labels of its member, of the members that it copies, and whether END was met.
ghost use Rattle.std.specs.Prelude.{◌≡◌, ℕ, List, ◌∷◌, ◌++◌, [], IfOk, OnOk};
ghost use Rattle.std.specs.Option.{option_map};
ghost use Rattle.text_pool.specs.Members.{Member};
ghost use Rattle.lookahead_scan.specs.Looks as looks;
ghost use Rattle.lookahead_scan.specs.Copying as copying;

use crate::sight::{Label, Sight};
use crate::statements::sights_in;
use hl_base::{Answer, Name, OutOfMemory};
use std::alloc::Global;
use std::collections::VecDeque;
use std::mem;
use text_pool::Present;

/// The statements of a member that are left.
type Left = VecDeque<Sight>;

/// What a member gives.
#[derive(Drop)]
pub(crate) struct Copied {
    pub(crate) labels: Vec<Label>,
    pub(crate) ends: bool,
}

/// A member that is gone through, with those that copied one another outside it, and what was met so far.
#[derive(Drop)]
pub(crate) struct Copying {
    labels: Vec<Label>,
    taken: Vec<Name>,
    current: Left,
    outer: Vec<Left>,
}

/// Whether there is more to go through; else whether END was met.
#[derive(Clone, Copy, Debug, PartialEq, Eq)]
enum Progress {
    Goes,
    Stops(bool),
}

/// The statements of the member of a name; none where there is no such member, or it cannot be read.
fn statements_in<P: Present>(
    alloc: Global,
    present: &P,
    name: &Name,
) -> Result<Option<Left>, OutOfMemory>
    ensures { IfOk result (λ list. copying.IsListOf (P.members present.now name.now) (option_map (λ left. left.items) list)) }
{
    match present.member(name) {
        Answer::File(_, id) => Ok(Some(sights_in(alloc, present.pool().text(id))?)),
        _ => Ok(None),
    }
}

/// Whether a member was taken.
fn is_taken(name: &Name, taken: &[Name]) -> bool
    ensures { result ≡ looks.is_taken name.now taken.now }
{
    taken.iter().any(|other| name.text() == other.text())
}

/// Adds a label behind others.
fn push(labels: &mut Vec<Label>, label: Label) -> Result<(), OutOfMemory>
    ensures { OnOk result (labels.new.items ≡ labels.old.items ++ label ∷ []) }
{
    labels.push(label)?;
    Ok(())
}

/// Adds a name behind others.
fn push_name(names: &mut Vec<Name>, name: Name) -> Result<(), OutOfMemory>
    ensures { OnOk result (names.new.items ≡ names.old.items ++ name ∷ []) }
{
    names.push(name)?;
    Ok(())
}

/// Adds the statements that are left of a list behind those of the lists outside it.
fn push_left(outer: &mut Vec<Left>, left: Left) -> Result<(), OutOfMemory>
    ensures { OnOk result (outer.new.items ≡ outer.old.items ++ left ∷ []) }
{
    outer.push(left)?;
    Ok(())
}

impl Copying {
    /// Open code, of which nothing is left.
    fn new(alloc: Global) -> Copying
        ensures { copying.IsNew result }
    {
        Copying {
            labels: Vec::new(alloc),
            taken: Vec::new(alloc),
            current: VecDeque::new(alloc),
            outer: Vec::new(alloc),
        }
    }

    /// Begins with the statements of a member that was taken last.
    fn begin(&mut self, list: Left) -> Result<(), OutOfMemory>
        ensures { OnOk result (copying.Begins self.old self.new list.items) }
    {
        let outer = mem::replace(&mut self.current, list);
        let _depth = self.outer.as_slice().len();
        push_left(&mut self.outer, outer)?;
        Ok(())
    }

    /// Takes a member that was not taken before.
    fn enter<P: Present>(
        &mut self,
        alloc: Global,
        present: &P,
        name: Name,
    ) -> Result<(), OutOfMemory>
        ensures { OnOk result (copying.Enters (P.members present.now) self.old self.new name) }
    {
        let list = statements_in(alloc, present, &name)?;
        push_name(&mut self.taken, name)?;
        match list {
            Some(list) => {
                self.begin(list)?;
                Ok(())
            }
            None => Ok(()),
        }
    }

    /// Takes in what a statement is.
    fn see<P: Present>(
        &mut self,
        alloc: Global,
        present: &P,
        sight: Sight,
    ) -> Result<Progress, OutOfMemory>
        ensures { IfOk result (copying.Sees (P.members present.now) self.old self.new sight) }
    {
        match sight {
            Sight::Passed => Ok(Progress::Goes),
            Sight::Labelled(label) => {
                push(&mut self.labels, label)?;
                Ok(Progress::Goes)
            }
            Sight::Ended(Some(label)) => {
                push(&mut self.labels, label)?;
                Ok(Progress::Stops(true))
            }
            Sight::Ended(None) => Ok(Progress::Stops(true)),
            Sight::Copied(name) => {
                if is_taken(&name, self.taken.as_slice()) {
                    return Ok(Progress::Goes);
                }
                self.enter(alloc, present, name)?;
                Ok(Progress::Goes)
            }
        }
    }

    /// Goes back to the list outside the one that is gone through, of which nothing is left.
    fn back(&mut self) -> Progress
        requires { self.old.current.items ≡ [] }
        ensures { (members : List ℕ → Member) → copying.Progresses members self.old self.new result }
    {
        match self.outer.pop() {
            Some(list) => {
                self.current = list;
                Progress::Goes
            }
            None => Progress::Stops(false),
        }
    }

    /// Goes on to the next statement.
    fn step<P: Present>(&mut self, alloc: Global, present: &P) -> Result<Progress, OutOfMemory>
        ensures { IfOk result (copying.Progresses (P.members present.now) self.old self.new) }
    {
        match self.current.pop_front() {
            Some(sight) => self.see(alloc, present, sight),
            None => Ok(self.back()),
        }
    }

    /// Goes through all that is left.
    fn finish<P: Present>(self, alloc: Global, present: &P) -> Result<Copied, OutOfMemory>
        ensures { IfOk result (λ copied. copying.IsMet (copying.comes (P.members present.now) self) copied) }
    {
        let mut copying = self;
        for _ in 0..u64::MAX {
            match copying.step(alloc, present)? {
                Progress::Goes => {}
                Progress::Stops(ends) => {
                    return Ok(Copied {
                        labels: copying.labels,
                        ends,
                    });
                }
            }
        }
        Err(OutOfMemory)
    }
}

/// What a statement of open code gives.
pub(crate) fn offer<P: Present>(
    alloc: Global,
    present: &P,
    sight: Sight,
) -> Result<Copied, OutOfMemory>
    ensures { IfOk result (λ copied. copying.IsMet (looks.offer (P.members present.now) sight) copied) }
{
    let mut copying = Copying::new(alloc);
    match copying.see(alloc, present, sight)? {
        Progress::Goes => copying.finish(alloc, present),
        Progress::Stops(ends) => Ok(Copied {
            labels: copying.labels,
            ends,
        }),
    }
}
