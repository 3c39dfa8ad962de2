//! The debug sessions that are in use, and what a message to one of them comes to.
ghost use Rattle.std.specs.Prelude.{◌≡◌, ℕ, List, [], Some, Result, map, option_map, position, slice_get, slice_set, ◌<◌, length, if◌then◌else◌, IfOk};
ghost use Rattle.std.specs.Vec.{vec_len};
ghost use Rattle.std.specs.List.{remove};
ghost use Rattle.std.specs.Borrow.{Bor};
ghost use Rattle.json_view.specs.Answers.{Answers};
ghost use Rattle.dap_messages.specs.Requests.{said_by};
ghost use Rattle.dap_messages.specs.declared.requests.DapIn.{DapIn};
ghost use Rattle.dap_messages.specs.declared.requests.DapRefusal.{DapRefusal};
ghost use Rattle.dap_messages.specs.Written.{value_of};
ghost use Rattle.debug_sessions.specs.State as state;
ghost use Rattle.debug_sessions.specs.Refusals as table;
ghost use Rattle.debug_sessions.specs.Answers as answers;
ghost use Rattle.debug_sessions.specs.Done.{AnswersAt};
ghost use Rattle.debug_sessions.specs.Written.{outcome_of, AreWhole, IsWholeAnswer};
ghost use Rattle.debug_sessions.specs.declared.debugger.Debugger.{Debugger as Seen};

use crate::debugger::Debugger;
use crate::effects::Replies;
use crate::launched::Launched;
use crate::refusals::{Refusal, first_of};
use crate::replies::{Answer, next_seq, refused};
use crate::rows;
use crate::wants::{launched_in, wanted};
use dap_messages::{DapIn, DapOut, DapRefusal};
use document_store::DocumentStore;
use hl_base::{OutOfMemory, Text};
use std::alloc::Global;
use std::marker::Model;

/// Up to eight debug sessions. Contracts see the list.
#[derive(Drop)]
pub struct DebugSessions {
    sessions: Vec<Debugger>,
}

impl Model for DebugSessions {
    ghost use Rattle.debug_sessions.specs.State.{Debuggers};

    ghost Value = { Debuggers };

    ghost view = { λ s. s.sessions.items };
}

/// The session of a number, if it is in use.
fn find(sessions: &[Debugger], number: u32) -> Option<&Debugger>
    ensures { option_map (λ (d : Bor Seen). d.now) result ≡ state.session_of number sessions.now }
{
    sessions.iter().find(|debugger| debugger.number == number)
}

/// The place of the session of a number.
fn place_of(sessions: &[Debugger], number: u32) -> Option<usize>
    ensures { result ≡ position (state.has_number number) sessions.now }
{
    sessions
        .iter()
        .position(|debugger| debugger.number == number)
}

/// How many sessions of other numbers are in use.
fn others(sessions: &[Debugger], number: u32) -> usize
    ensures { result ≡ table.others number sessions.now }
{
    sessions
        .iter()
        .filter(|debugger| debugger.number != number)
        .count()
}

/// Why a message is refused before the program of a launch is looked for, if it is.
fn early(
    read: &Result<DapIn, DapRefusal>,
    others: usize,
    found: Option<&Debugger>,
) -> Option<Refusal>
    ensures { result ≡ table.first_of (table.early read.now others (option_map (λ (d : Bor Seen). d.now) found.entry)) }
{
    let want = wanted(read);
    first_of(&[
        rows::unknown_command(read),
        rows::no_session(want, found),
        rows::too_many(want, others),
        rows::already_initialized(want, found),
        rows::bad_arguments(read),
        rows::already_launched(want, found),
    ])
}

/// Why it is refused otherwise.
fn late(
    alloc: Global,
    read: &Result<DapIn, DapRefusal>,
    is_program: bool,
    found: Option<&Debugger>,
) -> Result<Option<Refusal>, OutOfMemory>
    ensures { IfOk result (λ why. why
        ≡ table.first_of (table.late read.now is_program (option_map (λ (d : Bor Seen). d.now) found.entry))) }
{
    let want = wanted(read);
    let no_frame = rows::no_frame(alloc, read, found)?;
    Ok(first_of(&[
        rows::no_program(want, is_program),
        rows::not_launched(want, found),
        rows::already_started(want, found),
        rows::not_stopped(want, found),
        no_frame,
    ]))
}

/// The place of the session of a number, which is begun behind all others where it is not in use.
fn place_for(alloc: Global, sessions: &mut Vec<Debugger>, number: u32) -> Result<usize, OutOfMemory>
    ensures inside { IfOk result (λ at. at < vec_len sessions.new) }
    ensures place { IfOk result (λ at. slice_get sessions.new.items at ≡ Some (state.session_for number sessions.old.items)) }
    ensures put { IfOk result (λ at. (d : Seen) → slice_set sessions.new.items at d ≡ state.with_session number d sessions.old.items) }
    ensures taken { IfOk result (λ at. remove sessions.new.items at ≡ state.without_session number sessions.old.items) }
{
    if let Some(at) = place_of(sessions.as_slice(), number) {
        return Ok(at);
    }
    let at = sessions.len();
    sessions.push(Debugger::begun(alloc, number))?;
    Ok(at)
}

/// The number of the next message of the session of a number, which has sent it from now on; where that is not in use it is 0.
fn count(sessions: &mut [Debugger], number: u32) -> u64
    ensures seq { result ≡ answers.seq_for (state.session_of number sessions.old) }
    ensures counted { sessions.new ≡ answers.counted number (state.session_of number sessions.old) sessions.old }
{
    match place_of(sessions, number) {
        Some(at) => count_at(sessions, at),
        None => 0,
    }
}

/// The session of a place sends one message more, whose number is answered.
fn count_at(sessions: &mut [Debugger], at: usize) -> u64
    requires inside { at < length sessions.old }
    ensures seq { result ≡ answers.seq_for (slice_get sessions.old at) }
    ensures counted { (d : Seen) → slice_get sessions.old at ≡ Some d
        → sessions.new ≡ slice_set sessions.old at (answers.sent (state.next_seq d.seq) d) }
{
    let debugger = &mut sessions[at];
    debugger.seq = next_seq(debugger.seq);
    debugger.seq
}

/// Does what a request asks, in the session of a place.
fn answer_at(
    alloc: Global,
    sessions: &mut Vec<Debugger>,
    at: usize,
    request: DapIn,
    store: &DocumentStore,
    launched: Option<Launched>,
) -> Result<Replies, OutOfMemory>
    requires inside { at < vec_len sessions.old }
    ensures len { vec_len sessions.new ≡ vec_len sessions.old }
    ensures answers { IfOk result (λ replies. (d : Seen) → slice_get sessions.old.items at ≡ Some d
        → AnswersAt sessions.old.items sessions.new.items at replies d.seq request
        (answers.effect store.now.store.paths launched d request.command)) }
{
    let debugger = &mut sessions[at];
    debugger.answer(alloc, request, store, launched)
}

/// The session of a place is gone, unless it stays in use.
fn settle(sessions: &mut Vec<Debugger>, at: usize, stays: bool)
    requires inside { at < vec_len sessions.old }
    ensures { sessions.new.items ≡ (if stays then sessions.old.items else remove sessions.old.items at) }
{
    if !stays {
        sessions.remove(at);
    }
}

/// Does what a request asks, in the session of a number.
fn obey(
    alloc: Global,
    sessions: &mut Vec<Debugger>,
    number: u32,
    request: DapIn,
    store: &DocumentStore,
    launched: Option<Launched>,
) -> Result<Vec<DapOut>, OutOfMemory>
    ensures done { IfOk result (λ messages. answers.done sessions.old.items number request (state.session_for number sessions.old.items)
        (answers.effect store.now.store.paths launched (state.session_for number sessions.old.items) request.command)
        ≡ answers.writes sessions.new.items (map value_of messages.items)) }
    ensures whole { IfOk result (λ messages. AreWhole messages.items) }
{
    let at = place_for(alloc, sessions, number)?;
    let replies = answer_at(alloc, sessions, at, request, store, launched)?;
    settle(sessions, at, replies.stays);
    Ok(replies.messages)
}

impl DebugSessions {
    /// No session is in use. It takes no memory.
    pub fn new(alloc: Global) -> DebugSessions
        ensures { result ≡ [] }
    {
        DebugSessions {
            sessions: Vec::new(alloc),
        }
    }

    /// The path of the program that a message launches, where nothing refuses that before the program is looked for.
    pub fn wants_launch<'a>(
        &self,
        number: u32,
        read: &'a Result<DapIn, DapRefusal>,
    ) -> Option<&'a Text>
        ensures { option_map (λ (path : Bor (List ℕ)). path.now) result ≡ table.program_wanted self.now number read.now }
    {
        let found = find(&self.sessions, number);
        let others = others(&self.sessions, number);
        match early(read, others, found) {
            Some(_) => None,
            None => launched_in(read),
        }
    }

    /// Why a message is refused, if it is.
    fn refusal(
        &self,
        alloc: Global,
        number: u32,
        read: &Result<DapIn, DapRefusal>,
        is_program: bool,
    ) -> Result<Option<Refusal>, OutOfMemory>
        ensures { IfOk result (λ why. why ≡ table.refusal self.now number read.now is_program) }
    {
        let found = find(&self.sessions, number);
        let others = others(&self.sessions, number);
        match early(read, others, found) {
            Some(why) => Ok(Some(why)),
            None => late(alloc, read, is_program, found),
        }
    }

    /// What a message to the session of a number comes to, as it was read. A launch is given the trace of the program that
    /// `wants_launch` named, where that is an open one; any other message leaves what it is given. The texts of paths are those
    /// of the store. Behind an `Err`, which is given where the message was not read for want of memory, too, the sessions are not
    /// to be used.
    #[tactic(auto, unfolding(crate::specs::Answers::answer))]
    pub fn answer(
        &mut self,
        alloc: Global,
        number: u32,
        read: Result<DapIn, DapRefusal>,
        store: &DocumentStore,
        launched: Option<Launched>,
    ) -> Result<Answer, OutOfMemory>
        ensures answer { IfOk result (λ said. (wanted : Result DapIn DapRefusal) → Answers said_by read wanted
            → answers.answer store.now.store.paths self.old number wanted launched ≡ outcome_of said self.new) }
        ensures whole { IfOk result IsWholeAnswer }
    {
        match read {
            Ok(request) => self.judge(alloc, number, Ok(request), store, launched),
            Err(DapRefusal::NotDap) => Ok(Answer::NotDap),
            Err(DapRefusal::UnknownCommand(head)) => {
                let read = Err(DapRefusal::UnknownCommand(head));
                self.judge(alloc, number, read, store, launched)
            }
            Err(DapRefusal::BadArguments(head)) => {
                let read = Err(DapRefusal::BadArguments(head));
                self.judge(alloc, number, read, store, launched)
            }
            Err(DapRefusal::OutOfMemory) => Err(OutOfMemory),
        }
    }

    /// Refuses a request, or does what it asks.
    #[tactic(auto, unfolding(crate::specs::Answers::judged))]
    fn judge(
        &mut self,
        alloc: Global,
        number: u32,
        read: Result<DapIn, DapRefusal>,
        store: &DocumentStore,
        launched: Option<Launched>,
    ) -> Result<Answer, OutOfMemory>
        ensures answer { IfOk result (λ said. answers.judged store.now.store.paths self.old number read launched
            ≡ outcome_of said self.new) }
        ensures whole { IfOk result IsWholeAnswer }
    {
        match self.refusal(alloc, number, &read, launched.is_some())? {
            Some(why) => self.refuse(alloc, number, &read, why),
            None => self.obey(alloc, number, read, store, launched),
        }
    }

    /// Refuses a message.
    fn refuse(
        &mut self,
        alloc: Global,
        number: u32,
        read: &Result<DapIn, DapRefusal>,
        why: Refusal,
    ) -> Result<Answer, OutOfMemory>
        ensures answer { IfOk result (λ said. answers.refused self.old number (answers.head_of read.now) why ≡ outcome_of said self.new) }
        ensures whole { IfOk result IsWholeAnswer }
    {
        let seq = count(&mut self.sessions, number);
        let messages = refused(alloc, read, seq, why)?;
        Ok(Answer::Messages(messages))
    }

    /// Does what a message asks that is not refused.
    fn obey(
        &mut self,
        alloc: Global,
        number: u32,
        read: Result<DapIn, DapRefusal>,
        store: &DocumentStore,
        launched: Option<Launched>,
    ) -> Result<Answer, OutOfMemory>
        ensures answer { IfOk result (λ said. answers.obeyed store.now.store.paths launched self.old number read
            ≡ outcome_of said self.new) }
        ensures whole { IfOk result IsWholeAnswer }
    {
        match read {
            Ok(request) => {
                let messages = obey(alloc, &mut self.sessions, number, request, store, launched)?;
                Ok(Answer::Messages(messages))
            }
            Err(_) => Ok(Answer::NotDap),
        }
    }
}
