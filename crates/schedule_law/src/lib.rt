//! The law of schedules: when Turns are made makes no difference to what is published last. The function does nothing: its
//! contract is a law on the definitions of `session_core`, `message` and `turn`, which say what these calls of a session do.
//!
//! It knows nothing of sources, of the answers of `waiting` and of frames: Turns may stand anywhere between the messages.
#![tactic(auto)]

ghost use Rattle.std.specs.Prelude.{◌≡◌, ℕ, List, [], Some, true};
ghost use Rattle.document_store.specs.Store.{OpenDocument};
ghost use Rattle.hl_base.specs.declared.place.PathId.{PathId};
ghost use Rattle.io_edge.specs.LibraryCall.{LibraryCall};
ghost use Rattle.session_core.specs.State.{State, start, document_at, is_program, libraries, last_list};
ghost use Rattle.schedule_law.specs.Schedules.{Event, messages, Leads, NoneIsHeldUp, known, list_now};

/// Two sessions that hear the same messages, over the same answers of the library, are at the same stage with the same
/// documents, files, configuration and debug sessions, wherever Turns were made between the messages, if in neither a shutdown
/// was refused because a request of its id waited. Where no program is queued, what was published last of an open program is
/// its list, of its version and its text as they are, with the members as they are. So where no program is queued in either,
/// they have published the same version and the same list last of each.
pub fn schedules_agree()
    ensures known { (budget : ℕ) (calls : List LibraryCall) (some others : List Event) (one two : State) (left over : List LibraryCall)
        → messages some ≡ messages others → Leads (start budget) calls some one left → Leads (start budget) calls others two over
        → NoneIsHeldUp (start budget) calls some → NoneIsHeldUp (start budget) calls others
        → (known one ≡ known two) × (left ≡ over) }
    ensures present { (budget : ℕ) (calls : List LibraryCall) (events : List Event) (now : State) (left : List LibraryCall)
        → Leads (start budget) calls events now left → now.queue ≡ []
        → (n : PathId) (document : OpenDocument) → document_at now.store n ≡ Some document → is_program (libraries now) document ≡ true
        → last_list now.published n ≡ Some (list_now now n document) }
    ensures same { (budget : ℕ) (calls : List LibraryCall) (some others : List Event) (one two : State) (left over : List LibraryCall)
        → messages some ≡ messages others → Leads (start budget) calls some one left → Leads (start budget) calls others two over
        → NoneIsHeldUp (start budget) calls some → NoneIsHeldUp (start budget) calls others
        → one.queue ≡ [] → two.queue ≡ []
        → (n : PathId) (document : OpenDocument) → document_at one.store n ≡ Some document → is_program (libraries one) document ≡ true
        → last_list one.published n ≡ last_list two.published n }
{}
