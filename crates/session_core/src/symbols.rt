//! Requests on symbols, which wait until no program is queued, and their cancelling (LSP 3.17, "Language Features",
//! "Cancellation Support"). After an `Err` the state is not to be used.
ghost use Rattle.std.specs.Prelude.{◌≡◌, ◌++◌, [], Ok, IfOk, OnOk};
ghost use Rattle.std.specs.List.{flat_map};
ghost use Rattle.group_members.specs.Members.{Indexes};
ghost use Rattle.lsp_messages.specs.declared.incoming.LspIn.TheVariants as said;
ghost use Rattle.session_core.specs.Inside.{symbols_asked};
ghost use Rattle.session_core.specs.Message as messages;
ghost use Rattle.session_core.specs.Names.{names_at, program_names};
ghost use Rattle.session_core.specs.Step.{Acts, IsEffect};
ghost use Rattle.session_core.specs.Turn.{answer_waiting};
ghost use Rattle.waiting_requests.specs.Bodies.{replies_to};

use crate::bodies::Bodies;
use crate::lists::Surroundings;
use crate::programs::document_at;
use crate::requests::{out_of_place, too_early};
use crate::session_state::SessionState;
use crate::settling::open_programs;
use crate::state::Stage;
use document_store::DocumentStore;
use group_members::MemberIndex;
use hl_base::{Ledger, OutOfMemory, PathId, Steps, Text};
use lsp_messages::Id;
use program_names::AssembledNames;
use std::alloc::Global;
use waiting_requests::{ProgramNames, Question, Request, Waiting};

/// What programs tell of names, lent.
fn lent<'a>(
    alloc: Global,
    names: &'a [AssembledNames],
) -> Result<Vec<ProgramNames<'a>>, OutOfMemory>
    ensures { IfOk result (λ programs. programs.items ≡ names.now) }
{
    let mut programs: Vec<ProgramNames<'a>> = Vec::new(alloc);
    for one in names {
        programs.push(one.lend())?;
    }
    Ok(programs)
}

/// Answers requests that wait, from what programs tell of names. Then none waits.
fn answer_over(
    alloc: Global,
    store: &DocumentStore,
    names: &[AssembledNames],
    waiting: &mut Waiting,
) -> Result<Bodies, OutOfMemory>
    ensures bodies { IfOk result (λ bodies. bodies ≡ replies_to store.now.store names.now waiting.old) }
    ensures waiting { OnOk result (waiting.new ≡ []) }
{
    let programs = lent(alloc, names)?;
    let bodies = waiting.answer(alloc, store, &programs)?;
    Ok(Bodies::of(bodies))
}

impl SessionState {
    /// A request on symbols: it waits behind the others.
    pub(crate) fn ask(
        &mut self,
        alloc: Global,
        id: Id,
        uri: Text,
        question: Question,
    ) -> Result<Bodies, OutOfMemory>
        ensures { IfOk result (λ bodies. Acts (symbols_asked self.old id uri question) self.new bodies) }
    {
        match self.stage {
            Stage::Fresh => too_early(alloc, id),
            Stage::Active => {
                if self.waiting.waits(&id) {
                    return out_of_place(alloc, id);
                }
                self.waiting.push(Request { id, uri, question })?;
                Ok(Bodies::none(alloc))
            }
            Stage::Closing => out_of_place(alloc, id),
            Stage::Ended { .. } => out_of_place(alloc, id),
        }
    }

    /// `$/cancelRequest`: a request of that id that waits is refused, and waits no more.
    pub(crate) fn cancel(&mut self, alloc: Global, id: Id) -> Result<Bodies, OutOfMemory>
        ensures { IfOk result (λ bodies. Acts (messages.asked self.old (Ok (said.Cancel id))) self.new bodies) }
    {
        if !self.is_active() {
            return Ok(Bodies::none(alloc));
        }
        let body = self.waiting.cancel(alloc, id)?;
        Bodies::of_option(alloc, body)
    }

    /// Adds what the program of a path tells of names, where members are found so.
    fn add_names<L: Ledger>(
        &self,
        alloc: Global,
        index: &MemberIndex,
        path: PathId,
        names: &mut Vec<AssembledNames>,
        steps: &mut Steps<L>,
    ) -> Result<(), OutOfMemory>
        requires index { Indexes self.now.store index.now }
        ensures { OnOk result (names.new.items ≡ names.old.items ++ names_at self.now path) }
    {
        let Some(document) = document_at(&self.store, path) else {
            return Ok(());
        };
        let around = Surroundings {
            root: self.root.as_ref(),
            configuration: &self.configuration,
            folders: &self.folders,
            store: &self.store,
            index,
            budget: self.budget,
        };
        names.push(around.names_of(alloc, path, &document, steps)?)?;
        Ok(())
    }

    /// What the open programs tell of names, in order of opening, where members are found so.
    fn names_over<L: Ledger>(
        &self,
        alloc: Global,
        index: &MemberIndex,
        steps: &mut Steps<L>,
    ) -> Result<Vec<AssembledNames>, OutOfMemory>
        requires index { Indexes self.now.store index.now }
        ensures { IfOk result (λ names. names.items ≡ program_names self.now) }
    {
        let programs = open_programs(alloc, &self.folders, &self.store)?;
        let mut names = Vec::new(alloc);
        for path in &programs {
            self.add_names(alloc, index, *path, &mut names, steps)?;
        }
        Ok(names)
    }

    /// What the open programs tell of names, in order of opening.
    fn program_names<L: Ledger>(
        &self,
        alloc: Global,
        steps: &mut Steps<L>,
    ) -> Result<Vec<AssembledNames>, OutOfMemory>
        ensures { IfOk result (λ names. names.items ≡ program_names self.now) }
    {
        match &self.index {
            Some(index) => self.names_over(alloc, index, steps),
            None => {
                let index = MemberIndex::of(alloc, &self.store)?;
                self.names_over(alloc, &index, steps)
            }
        }
    }

    /// What the open programs tell of names, in order of opening, out of its place: as it was kept, or found anew.
    fn taken_names<L: Ledger>(
        &mut self,
        alloc: Global,
        steps: &mut Steps<L>,
    ) -> Result<Vec<AssembledNames>, OutOfMemory>
        ensures names { IfOk result (λ names. names.items ≡ program_names self.old) }
        ensures same { self.new ≡ self.old }
    {
        match self.names.take() {
            Some(names) => Ok(names),
            None => self.program_names(alloc, steps),
        }
    }

    /// Answers the requests that wait, if no program is queued. The programs are assembled for it where that was not done since
    /// documents and files are as they are; so it costs nothing where none waits.
    fn answer_waiting<L: Ledger>(
        &mut self,
        alloc: Global,
        steps: &mut Steps<L>,
    ) -> Result<Bodies, OutOfMemory>
        ensures { IfOk result (λ bodies. IsEffect (answer_waiting self.old) self.new bodies) }
    {
        if self.has_work() {
            return Ok(Bodies::none(alloc));
        }
        if self.waiting.is_empty() {
            return Ok(Bodies::none(alloc));
        }
        let names = self.taken_names(alloc, steps)?;
        let bodies = answer_over(alloc, &self.store, &names, &mut self.waiting)?;
        self.names = Some(names);
        Ok(bodies)
    }

    /// Answers, behind what is written for an event, the requests that wait, if no program is queued.
    pub(crate) fn conclude<L: Ledger>(
        &mut self,
        alloc: Global,
        bodies: Bodies,
        steps: &mut Steps<L>,
    ) -> Result<Bodies, OutOfMemory>
        ensures { IfOk result (λ all. IsEffect (messages.concluded (record { state = self.old; bodies = bodies })) self.new all) }
    {
        let mut bodies = bodies;
        let answers = self.answer_waiting(alloc, steps)?;
        bodies.append(answers)?;
        Ok(bodies)
    }
}
