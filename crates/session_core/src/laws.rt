//! Laws of the definitions, each the contract of a function with no body.
ghost use Rattle.std.specs.Prelude.{◌≡◌, ℕ, List, [], Bool, true, false};
ghost use Rattle.io_edge.specs.LibraryCall.{LibraryCall};
ghost use Rattle.trace_values.specs.declared.item.TraceItem.{TraceItem};
ghost use Rattle.trace_arena.specs.Points.{Point};
ghost use Rattle.session_core.specs.declared.connection.Connection.TheVariants.{Exit};
ghost use Rattle.session_core.specs.SessionView.{connection_of};
ghost use Rattle.session_core.specs.Laws.{is_refused_body, is_body_on_files, is_body_debugging, is_body_disconnecting};
ghost use Rattle.session_core.specs.Laws.{Keeps, LeavesCalls, AreFresh, LeavesFresh, KeepsOrQueues, HasDebugger};
ghost use Rattle.session_core.specs.Laws.{KeepsDebugger, HasTrace, KeepsTrace, AreAnswered, HaveTheirIds, LeavesSo};
ghost use Rattle.session_core.specs.Message.{message};
ghost use Rattle.session_core.specs.State.{State, start};
ghost use Rattle.session_core.specs.Step.{Goes, MakesAll};
ghost use Rattle.session_core.specs.Turn.{turn};

/// A refused message leaves the documents, the queue, the requests that wait, how far the session has come and what was published as they were, adds
/// at most one body, its reply or its line of the log, and asks the library nothing. It is so in every state that a session comes
/// to: there no request waits unless a program is queued (`requests_wait_for_programs`).
pub fn refusals_change_nothing()
    ensures { (s : State) (body : List ℕ) (calls : List LibraryCall) → AreAnswered s
        → is_refused_body s body ≡ true → Keeps (message s body calls) s calls }
{}

/// Requests wait only while a program is queued: behind each message and each Turn that leaves none queued, every request was
/// answered.
pub fn requests_wait_for_programs()
    ensures at_first { (budget : ℕ) → AreAnswered (start budget) }
    ensures message { (s : State) (body : List ℕ) (calls : List LibraryCall) → AreAnswered s → LeavesSo AreAnswered (message s body calls) }
    ensures turn { (s : State) → AreAnswered (turn s).state }
{}

/// No two requests that wait have one id: one that came with the id of another was refused.
pub fn requests_have_their_ids()
    ensures at_first { (budget : ℕ) → HaveTheirIds (start budget) }
    ensures message { (s : State) (body : List ℕ) (calls : List LibraryCall) → HaveTheirIds s
        → LeavesSo HaveTheirIds (message s body calls) }
    ensures turn { (s : State) → HaveTheirIds s → HaveTheirIds (turn s).state }
{}

/// Behind `exit` nothing changes, nothing is written, and the library is asked nothing.
pub fn the_end_is_final()
    ensures { (s : State) (closed : Bool) (body : List ℕ) (calls : List LibraryCall) → connection_of s ≡ Exit closed
        → message s body calls ≡ Goes s [] calls }
{}

/// Lists are fresh: what was last published of each open program that is not queued is its list, of its version and its
/// text as they are. It is so at first; each message keeps it so, but `exit`, and so does each Turn. So with an empty
/// queue every list is of the texts present then.
pub fn lists_are_fresh()
    ensures at_first { (budget : ℕ) → AreFresh (start budget) }
    ensures message { (s : State) (body : List ℕ) (calls : List LibraryCall) → AreFresh s → LeavesFresh (message s body calls) }
    ensures turn { (s : State) → AreFresh s → AreFresh (turn s).state }
{}

/// Where no call of the library is to come, a message goes on and leaves none, or it stops at the first call that it makes:
/// no answer is of another call.
pub fn no_answer_is_never_other()
    ensures { (s : State) (body : List ℕ) → MakesAll (message s body []) }
{}

/// A message that changes the documents, the files, the folder of the client, the configuration or the budget queues every open
/// program.
pub fn changes_queue_every_program()
    ensures { (s : State) (body : List ℕ) (calls : List LibraryCall) → KeepsOrQueues s (message s body calls) }
{}

/// Only `initialized` and a change of watched files ask the library: any other message makes no call of it, as a keystroke.
pub fn only_messages_on_files_ask()
    ensures { (s : State) (body : List ℕ) (calls : List LibraryCall) → is_body_on_files body ≡ false
        → LeavesCalls (message s body calls) calls }
{}

/// No event but a message to a debug session changes it: its launch, its place and its breakpoints. So nothing that is typed,
/// and no Turn, changes what its program is stopped at.
pub fn debuggers_change_by_their_messages()
    ensures message { (s : State) (number : ℕ) (body : List ℕ) (calls : List LibraryCall) → is_body_debugging number body ≡ false
        → KeepsDebugger number s (message s body calls) }
    ensures turn { (s : State) (number : ℕ) → HasDebugger number s (turn s).state }
{}

/// A debugger keeps its launch's trace until a message disconnects it, whatever events come between: edits, files that change,
/// Turns, and launches of other debug sessions.
pub fn debuggers_keep_their_traces()
    ensures message { (s : State) (number : ℕ) (trace : List (Point TraceItem)) (body : List ℕ) (calls : List LibraryCall)
        → HasTrace number trace s → is_body_disconnecting number body ≡ false → KeepsTrace number trace (message s body calls) }
    ensures turn { (s : State) (number : ℕ) (trace : List (Point TraceItem)) → HasTrace number trace s
        → HasTrace number trace (turn s).state }
{}
