//! Which request a value is.
ghost use Rattle.std.specs.Prelude.{◌≡◌, codes, Result, IfOk, Ok, Err};
ghost use Rattle.serde_json.specs.Find.{as_str};
ghost use Rattle.serde_json.specs.View.{view};
ghost use Rattle.json_view.specs.Answers.{Answers};
ghost use Rattle.json_view.specs.Members.{member_of, shown};
ghost use Rattle.json_view.specs.declared.members.MemberFault.{MemberFault};
ghost use Rattle.dap_messages.specs.Arguments.{named_by};
ghost use Rattle.dap_messages.specs.Requests.{name_of, is_request, seq_of, name_in, head_with, unless_bad, command_of, request_of, bare_command, said_by};
ghost use Rattle.dap_messages.specs.declared.requests.DapCommand.{DapCommand};

use crate::arguments::{
    ArgumentFault, initialization, launching, scopes_asked, setting, variables_asked,
};
use crate::commands::bare;
use crate::requests::{DapCommand, DapHead, DapIn, DapRefusal};
use hl_base::{OutOfMemory, Text};
use json_view::{need_int, need_text};
use serde_json::Value;
use std::alloc::Global;

/// The request that a value is, or the first reason why it is none. A refusal's head has the number and the command as they
/// came.
#[tactic(auto, unfolding(crate::specs::Requests::request_of))]
pub fn read_dap(alloc: Global, v: &Value) -> Result<DapIn, DapRefusal>
    ensures read { Answers said_by result (request_of (view v.now)) }
    ensures named { IfOk result (λ read. member_of as_str (codes "command") (view v.now)
        ≡ Ok (name_of read.command)) }
{
    if !is_request(v) {
        return Err(DapRefusal::NotDap);
    }
    let seq = seq(v)?;
    let name = name(v)?;
    let command = command(alloc, seq, name, v)?;
    Ok(DapIn { seq, command })
}

/// Whether it says that it is a request.
fn is_request(v: &Value) -> bool
    ensures { result ≡ is_request (view v.now) }
{
    v.get("type")
        .and_then(Value::as_str)
        .is_some_and(|kind| "request" == kind)
}

/// The number that the client gave it.
fn seq(v: &Value) -> Result<i32, DapRefusal>
    ensures { result ≡ seq_of (view v.now) }
{
    match need_int(v, "seq") {
        Ok(seq) => Ok(seq),
        Err(_) => Err(DapRefusal::NotDap),
    }
}

/// The name of its command.
fn name(v: &Value) -> Result<&str, DapRefusal>
    ensures { shown (λ s. s.now) result ≡ name_in (view v.now) }
{
    match need_text(v, "command") {
        Ok(name) => Ok(name),
        Err(_) => Err(DapRefusal::NotDap),
    }
}

fn command(alloc: Global, seq: i32, name: &str, v: &Value) -> Result<DapCommand, DapRefusal>
    ensures { Answers said_by result (command_of seq name.now (view v.now)) }
{
    match name {
        "initialize" => unless_bad(alloc, seq, name, initialization(alloc, v)),
        "launch" => unless_bad(alloc, seq, name, launching(alloc, v)),
        "setBreakpoints" => unless_bad(alloc, seq, name, setting(alloc, v)),
        "scopes" => unless_bad(alloc, seq, name, scopes_asked(alloc, v)),
        "variables" => unless_bad(alloc, seq, name, variables_asked(alloc, v)),
        _ => bare_command(alloc, seq, name),
    }
}

/// A command that reads no arguments.
fn bare_command(alloc: Global, seq: i32, name: &str) -> Result<DapCommand, DapRefusal>
    ensures { Answers said_by result (bare_command seq name.now) }
{
    match bare(name) {
        Some(command) => Ok(command),
        None => Err(DapRefusal::UnknownCommand(head(alloc, seq, name)?)),
    }
}

/// A command whose arguments were read.
fn unless_bad(
    alloc: Global,
    seq: i32,
    name: &str,
    read: Result<DapCommand, ArgumentFault>,
) -> Result<DapCommand, DapRefusal>
    ensures { (wanted : Result DapCommand MemberFault) → Answers named_by read wanted
        → Answers said_by result (unless_bad (head_with seq name.now) wanted) }
{
    match read {
        Ok(command) => Ok(command),
        Err(ArgumentFault::Bad(_)) => Err(DapRefusal::BadArguments(head(alloc, seq, name)?)),
        Err(ArgumentFault::OutOfMemory) => Err(DapRefusal::OutOfMemory),
    }
}

fn head(alloc: Global, seq: i32, name: &str) -> Result<DapHead, OutOfMemory>
    ensures { IfOk result (λ head. head ≡ head_with seq name.now) }
{
    Ok(DapHead {
        seq,
        command: Text::of(alloc, name)?,
    })
}
