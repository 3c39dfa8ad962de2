//! The texts of the members and of the program, and where each edit changes it.
ghost use Rattle.std.specs.Prelude.{◌≡◌, ◌<◌, ◌≤◌, length, string_bytes, IfOk};
ghost use Rattle.bulk_script.specs.Texts as rules;

use hl_base::OutOfMemory;
use std::alloc::Global;

/// How many edits there are.
pub const EDITS: u32 = 10;

/// How many members there are.
pub const MEMBERS: u32 = 10;

/// The name of the member of a number.
#[tactic(auto, unfolding(crate::specs::Texts::member_name))]
pub fn member_name(alloc: Global, number: u32) -> Result<String, OutOfMemory>
    ensures { IfOk result (λ name. string_bytes name ≡ rules.member_name number) }
{
    Ok(format!(in alloc; "M{number}")?)
}

/// The prototype of a member.
#[tactic(auto, unfolding(crate::specs::Texts::prototype))]
fn prototype(alloc: Global, number: u32) -> Result<String, OutOfMemory>
    ensures { IfOk result (λ line. string_bytes line ≡ rules.prototype number) }
{
    let name = member_name(alloc, number)?;
    Ok(format!(in alloc; "&L {name} &P")?)
}

/// The text of a member.
#[tactic(auto, unfolding(crate::specs::Texts::member_text))]
pub fn member_text(alloc: Global, number: u32) -> Result<String, OutOfMemory>
    ensures { IfOk result (λ text. string_bytes text ≡ rules.member_text number) }
{
    let prototype = prototype(alloc, number)?;
    Ok(format!(in alloc;
        " MACRO\n{prototype}\n GBLA &TOT\n&TOT SETA &TOT+&P\n&L DC F'&P'\n MEND\n"
    )?)
}

/// The call that an edit changes.
fn edited_call(count: u32, edit: u32) -> u32
    requires few { count ≤ 10000 }
    requires within { edit < 10 }
    ensures call { result ≡ rules.edited_call count edit }
    ensures small { result ≤ 10000 }
{
    edit * count / EDITS
}

/// Whether one of so many edits changed a call.
fn is_edited(count: u32, edits: u32, call: u32) -> bool
    requires few { count ≤ 10000 }
    requires within { edits ≤ 10 }
    ensures { result ≡ rules.is_edited count edits call }
{
    let mut left = edits;
    while left > 0 {
        left -= 1;
        if edited_call(count, left) == call {
            return true;
        }
    }
    false
}

/// The operand of a call behind so many edits.
#[tactic(auto, unfolding(crate::specs::Texts::operand))]
fn operand(count: u32, edits: u32, call: u32) -> u32
    requires few { count ≤ 10000 }
    requires within { edits ≤ 10 }
    ensures { result ≡ rules.operand count edits call }
{
    if is_edited(count, edits, call) {
        5
    } else {
        call % 97
    }
}

/// A call up to its operand.
#[tactic(auto, unfolding(crate::specs::Texts::call_front))]
fn call_front(alloc: Global, call: u32) -> Result<String, OutOfMemory>
    ensures { IfOk result (λ front. string_bytes front ≡ rules.call_front call) }
{
    let name = member_name(alloc, call % 10)?;
    Ok(format!(in alloc; "X{call} {name} ")?)
}

/// A call behind so many edits.
#[tactic(auto, unfolding(crate::specs::Texts::call_text))]
fn call_text(alloc: Global, count: u32, edits: u32, call: u32) -> Result<String, OutOfMemory>
    requires few { count ≤ 10000 }
    requires within { edits ≤ 10 }
    ensures { IfOk result (λ text. string_bytes text ≡ rules.call_text count edits call) }
{
    let front = call_front(alloc, call)?;
    let operand = operand(count, edits, call);
    Ok(format!(in alloc; "{front}{operand}")?)
}

/// The same as a line.
fn call_line(alloc: Global, count: u32, edits: u32, call: u32) -> Result<String, OutOfMemory>
    requires few { count ≤ 10000 }
    requires within { edits ≤ 10 }
    ensures { IfOk result (λ line. string_bytes line ≡ rules.call_line count edits call) }
{
    let text = call_text(alloc, count, edits, call)?;
    Ok(format!(in alloc; "{text}\n")?)
}

/// The program of so many calls, as it is opened.
#[tactic(auto, unfolding(crate::specs::Texts::program_text))]
pub fn program_text(alloc: Global, count: u32) -> Result<String, OutOfMemory>
    requires few { count ≤ 10000 }
    ensures { IfOk result (λ text. string_bytes text ≡ rules.program_text count 0) }
{
    let mut text = String::from_str(alloc, " GBLA &TOT\nBULK CSECT\n")?;
    for call in 0..count {
        let line = call_line(alloc, count, 0, call)?;
        text.push_str(line.as_str())?;
    }
    text.push_str(" END\n")?;
    Ok(text)
}

/// Where an edit changes the text: a line, counted from 0, and the columns of it from `first` on, up to `end`.
#[derive(Clone, Copy, Debug, PartialEq, Eq)]
pub struct Place {
    pub line: u32,
    pub first: u32,
    pub end: u32,
}

/// How many columns a text takes, which is ASCII. More than 32 bits tell are more than memory has room for.
fn columns(text: &str) -> Result<u32, OutOfMemory>
    ensures { IfOk result (λ number. number ≡ length text.now) }
{
    u32::try_from(text.len()).map_err(|_| OutOfMemory)
}

/// Where an edit changes the text as the edits before it left it: at the operand of its call.
pub fn edited_place(alloc: Global, count: u32, edit: u32) -> Result<Place, OutOfMemory>
    requires few { count ≤ 10000 }
    requires within { edit < 10 }
    ensures { IfOk result (λ place. place ≡ record {
      line = rules.edited_line count edit;
      first = rules.first_column count edit;
      end = rules.end_column count edit;
    }) }
{
    let call = edited_call(count, edit);
    let front = call_front(alloc, call)?;
    let whole = call_text(alloc, count, edit, call)?;
    Ok(Place {
        line: call + 2,
        first: columns(front.as_str())?,
        end: columns(whole.as_str())?,
    })
}
