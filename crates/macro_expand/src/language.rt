//! The language in code.
ghost use Rattle.std.specs.Prelude.{◌≡◌, ◌++◌, ◌∷◌, [], map, IfOk, option_copied};
ghost use Rattle.hl_base.specs.declared.set.Key.TheVariants.{Parm};
ghost use Rattle.kept_values.specs.Keys.{key_tree};
ghost use Rattle.expansion_step.specs.Meaning.{fault_by, stack_by};
ghost use Rattle.call_sites.specs.Calls.{call_of};
ghost use Rattle.call_sites.specs.Rules as rules;
ghost use Rattle.macro_expand.specs.Items.{entry_of, fault_row, is_first, notes_of};
ghost use Rattle.macro_expand.specs.Language.{hlasm, parm_in};
ghost use Rattle.macro_expand.specs.Codes.{means, reading};

use crate::columns::with_columns;
use crate::passage::passage_of;
use crate::performing::performed;
use crate::{Passage, Said};
use asking_core::Noted;
use call_knowledge::{Change, Knowledge, answered};
use call_sites::{CallSite, Known, is_moving, is_writable, rebased};
use expansion_step::{CodedLanguage, Fault, Level, Performed, Stack};
use hl_base::{Answer, Frames, Key, Name, Notes, OutOfMemory, Text};
use macro_entry::{bound_at_entry, entry_keys};
use macro_library::MemberFile;
use note_rows::{Row, note};
use std::alloc::Global;
use trace_values::{Settings, TraceItem};

/// The language of open code and macros. A file that was read may be handed in: open code of its path and text is not read again.
#[derive(Drop)]
pub struct HlasmLanguage {
    read: Option<MemberFile>,
}

impl HlasmLanguage {
    /// The language, where no open code was read before.
    pub fn new() -> HlasmLanguage {
        HlasmLanguage { read: None }
    }

    /// The language, where the open code of this file was read before.
    pub fn having_read(file: MemberFile) -> HlasmLanguage {
        HlasmLanguage { read: Some(file) }
    }
}

/// The asking machine that expands open code and macros.
pub type Expander = expansion_step::Expander<HlasmLanguage>;

/// The text that is answered for SYSPARM: empty where none is.
fn parm_in(alloc: Global, answer: Option<&Answer>) -> Result<Text, OutOfMemory>
    ensures { IfOk result (λ text. text ≡ parm_in (option_copied answer.entry)) }
{
    match answer {
        Some(Answer::Chars(text)) => text.copy(alloc),
        _ => Ok(Text::new(alloc)),
    }
}

/// What is reported of a fault, of a statement that may branch to this sequence symbol.
fn fault_row(fault: Fault, target: &Option<Name>) -> Option<Row>
    ensures { result ≡ fault_row (fault_by fault) target.now }
{
    match fault {
        Fault::NoFault => None,
        Fault::NoLabel => match target {
            Some(label) => Some(Row::NoSequenceSymbol(label.copy())),
            None => None,
        },
        Fault::NoBranchLeft => Some(Row::BranchLimit),
        Fault::NoRoom => Some(Row::NestedTooDeep),
    }
}

/// Notes, and behind them what is reported of a fault.
fn with_fault(alloc: Global, mut notes: Notes, row: Option<Row>) -> Result<Notes, OutOfMemory>
    ensures { IfOk result (λ all. all ≡ notes ++ notes_of row) }
{
    match row {
        None => Ok(notes),
        Some(row) => {
            notes.push(note(alloc, &row, Frames::new(alloc))?)?;
            Ok(notes)
        }
    }
}

/// Whether a call is at the first statement of its own list.
#[tactic(auto, using(crate::proofs::EntryLaws::below_count))]
fn is_first(stack: &Stack<Passage, Knowledge>) -> bool
    ensures { result ≡ is_first (stack_by means stack.now) }
{
    stack.here.position == 0 && stack.below.is_empty()
}

/// What a point shows of the entry of its call.
fn entry_of(alloc: Global, stack: &Stack<Passage, Knowledge>) -> Result<Settings, OutOfMemory>
    ensures { IfOk result (λ settings. settings ≡ entry_of (stack_by means stack.now)) }
{
    if is_first(stack) {
        return stack.known.shown().copy(alloc);
    }
    Ok(Settings::new(alloc))
}

/// What open code asks at its entry.
fn open_code_keys(alloc: Global) -> Result<Vec<Key>, OutOfMemory>
    ensures { IfOk result (λ keys. map key_tree keys.items ≡ key_tree Parm ∷ []) }
{
    let mut keys = Vec::new(alloc);
    keys.push(Key::Parm)?;
    Ok(keys)
}

impl CodedLanguage for HlasmLanguage {
    type Key = Key;

    type Value = Known;

    type Call = CallSite;

    type Listing = Passage;

    type Label = Name;

    type Known = Knowledge;

    type Change = Change;

    type Said = Box<Said>;

    type Item = TraceItem;

    type Frames = Frames;

    ghost language = { hlasm };

    ghost reads = { reading };

    ghost call_of = { call_of };

    ghost frames_of = { λ frames. frames };

    ghost moving = { rules.is_moving };

    ghost writable = { rules.is_writable };

    ghost rebased = { rules.rebased };

    fn listing(&self, alloc: Global, call: &Self::Call) -> Result<Self::Listing, OutOfMemory> {
        passage_of(alloc, call, &self.read)
    }

    fn is_open_code(&self, call: &Self::Call) -> bool {
        match call {
            CallSite::OpenCode(_, _) => true,
            CallSite::Macro(_) => false,
        }
    }

    fn entry_keys(&self, alloc: Global, call: &Self::Call) -> Result<Vec<Self::Key>, OutOfMemory> {
        match call {
            CallSite::OpenCode(_, _) => open_code_keys(alloc),
            CallSite::Macro(call) => entry_keys(alloc, &call.definition.definition),
        }
    }

    fn bind(
        &self,
        alloc: Global,
        call: &Self::Call,
        answers: &[Noted<Self::Key, Self::Value>],
    ) -> Result<Self::Known, OutOfMemory> {
        match call {
            CallSite::OpenCode(_, _) => {
                let parm = parm_in(alloc, answered(answers, &Key::Parm))?;
                Knowledge::open_code(alloc, parm)
            }
            CallSite::Macro(call) => bound_at_entry(alloc, call, answers),
        }
    }

    fn has_statement(&self, here: &Level<Self::Listing>) -> bool {
        here.listing.listing.has(here.position)
    }

    fn place_of(&self, listing: &Self::Listing, label: &Self::Label) -> Option<u32> {
        listing.listing.place_of(label)
    }

    fn perform(
        &self,
        alloc: Global,
        here: &Level<Self::Listing>,
        known: &Self::Known,
        answers: &[Noted<Self::Key, Self::Value>],
    ) -> Result<
        Performed<
            Self::Listing,
            Self::Label,
            Self::Change,
            Self::Said,
            Self::Call,
            Self::Key,
            Self::Value,
        >,
        OutOfMemory,
    > {
        let Some(line) = here.listing.listing.point(here.position) else {
            return Ok(Performed::Nothing);
        };
        let Some(reading) = line.reading() else {
            return Ok(Performed::Nothing);
        };
        performed(alloc, here, line.statement(), reading, known, answers)
    }

    fn change(
        &self,
        alloc: Global,
        known: &mut Self::Known,
        change: Self::Change,
    ) -> Result<(), OutOfMemory> {
        known.change(alloc, change)
    }

    fn item(
        &self,
        alloc: Global,
        stack: &Stack<Self::Listing, Self::Known>,
        said: Self::Said,
        fault: Fault,
    ) -> Result<Self::Item, OutOfMemory> {
        let Said {
            notes,
            target,
            called,
            locals,
            declared,
            globals,
            line,
        } = Box::into_inner(said);
        let row = fault_row(fault, &target);
        let notes = with_fault(alloc, notes, row)?;
        let notes = with_columns(alloc, &stack.here.listing, stack.here.position, notes)?;
        let frames = stack.here.listing.frames_at(stack.here.position)?;
        let entry = entry_of(alloc, stack)?;
        Ok(TraceItem {
            frames,
            definition: stack.here.listing.definition,
            called,
            entry,
            locals,
            declared,
            globals,
            line,
            notes,
        })
    }

    fn frames(
        &self,
        alloc: Global,
        here: &Level<Self::Listing>,
        _below: &[Level<Self::Listing>],
    ) -> Result<Self::Frames, OutOfMemory> {
        here.listing.all_frames_at(alloc, here.position)
    }

    fn is_moving(&self, key: &Self::Key) -> bool {
        is_moving(key)
    }

    fn is_writable(&self, key: &Self::Key) -> bool {
        is_writable(key)
    }

    fn rebase(
        &self,
        alloc: Global,
        key: &Self::Key,
        value: &Self::Value,
        calls: u32,
    ) -> Result<Self::Value, OutOfMemory> {
        rebased(alloc, key, value, calls)
    }
}
