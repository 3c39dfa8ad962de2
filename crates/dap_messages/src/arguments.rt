//! The arguments of each request.
ghost use Rattle.std.specs.Prelude.{◌≡◌, map};
ghost use Rattle.serde_json.specs.Data.{object, no_members};
ghost use Rattle.serde_json.specs.View.{view};
ghost use Rattle.json_view.specs.Answers.{Answers};
ghost use Rattle.json_view.specs.Members.{member_of, unless_missing, shown};
ghost use Rattle.dap_messages.specs.Arguments.{named_by, each, arguments_of, as_true, initialization, launching, line_in, lines_in, setting, scopes_asked, variables_asked};

use crate::requests::{BreakLines, DapCommand};
use hl_base::{OutOfMemory, Text};
use json_view::{
    MemberFault, need_int, need_object, need_text, need_uint, opt_bool, opt_list, opt_object,
};
use serde_json::{Map, Value};
use std::alloc::Global;

/// Why there are no arguments of a request: one is missing or wrong, or want of memory.
#[derive(Clone, Copy, Debug, PartialEq, Eq)]
pub enum ArgumentFault {
    Bad(MemberFault),
    OutOfMemory,
}

impl From<MemberFault> for ArgumentFault {
    ghost use Rattle.dap_messages.specs.declared.arguments.ArgumentFault.TheVariants.{Bad as bad};

    ghost from_gives = { λ member fault. fault ≡ bad member };

    fn from(member: MemberFault) -> ArgumentFault {
        ArgumentFault::Bad(member)
    }
}

impl From<OutOfMemory> for ArgumentFault {
    ghost use Rattle.dap_messages.specs.declared.arguments.ArgumentFault.TheVariants.{OutOfMemory as out_of_memory};

    ghost from_gives = { λ _ fault. fault ≡ out_of_memory };

    fn from(_refused: OutOfMemory) -> ArgumentFault {
        ArgumentFault::OutOfMemory
    }
}

/// The arguments of a request, or the value that is handed in where there are none.
fn arguments<'a>(message: &'a Value, none: &'a Value) -> Result<&'a Value, MemberFault>
    requires { view none.now ≡ object no_members }
    ensures { shown (λ o. view o.now) result ≡ arguments_of (view message.now) }
{
    Ok(opt_object(message, "arguments")?.unwrap_or(none))
}

/// A truth value that, where it is there, is true.
fn true_if(arguments: &Value, member: &str) -> Result<Option<bool>, MemberFault>
    ensures { result ≡ unless_missing (member_of as_true member.now (view arguments.now)) }
{
    match opt_bool(arguments, member)? {
        Some(false) => Err(MemberFault::WrongKind),
        given => Ok(given),
    }
}

/// A client that makes itself known.
#[tactic(auto, unfolding(crate::specs::Arguments::initialization))]
pub fn initialization(alloc: Global, message: &Value) -> Result<DapCommand, ArgumentFault>
    ensures { Answers named_by result (initialization (view message.now)) }
{
    let none = Value::Object(Map::new(alloc));
    let arguments = arguments(message, &none)?;
    true_if(arguments, "linesStartAt1")?;
    true_if(arguments, "columnsStartAt1")?;
    Ok(DapCommand::Initialize)
}

/// A program that is to be launched.
#[tactic(auto, unfolding(crate::specs::Arguments::launching))]
pub fn launching(alloc: Global, message: &Value) -> Result<DapCommand, ArgumentFault>
    ensures { Answers named_by result (launching (view message.now)) }
{
    let none = Value::Object(Map::new(alloc));
    let arguments = arguments(message, &none)?;
    let program = need_text(arguments, "program")?;
    let stops = opt_bool(arguments, "stopOnEntry")?;
    Ok(DapCommand::Launch {
        program: Text::of(alloc, program)?,
        stop_on_entry: stops.unwrap_or(false),
    })
}

/// The breakpoints of a path.
#[tactic(auto, unfolding(crate::specs::Arguments::setting))]
pub fn setting(alloc: Global, message: &Value) -> Result<DapCommand, ArgumentFault>
    ensures { Answers named_by result (setting (view message.now)) }
{
    let none = Value::Object(Map::new(alloc));
    let arguments = arguments(message, &none)?;
    let source = need_object(arguments, "source")?;
    let path = need_text(source, "path")?;
    let lines = lines(alloc, arguments)?;
    Ok(DapCommand::SetBreakpoints {
        path: Text::of(alloc, path)?,
        lines,
    })
}

/// The lines of breakpoints.
fn lines(alloc: Global, arguments: &Value) -> Result<BreakLines, ArgumentFault>
    ensures { Answers named_by result (lines_in (view arguments.now)) }
{
    match opt_list(arguments, "breakpoints")? {
        Some(breakpoints) => lines_of(alloc, breakpoints),
        None => Ok(BreakLines::new(alloc)),
    }
}

fn lines_of(alloc: Global, breakpoints: &[Value]) -> Result<BreakLines, ArgumentFault>
    ensures { Answers named_by result (each line_in (map view breakpoints.now)) }
{
    let mut lines = BreakLines::new(alloc);
    for breakpoint in breakpoints {
        lines.push(line(breakpoint)?)?;
    }
    Ok(lines)
}

/// The line of a breakpoint: from 1.
fn line(breakpoint: &Value) -> Result<u32, MemberFault>
    ensures { result ≡ line_in (view breakpoint.now) }
{
    let line = need_uint(breakpoint, "line")?;
    if line > 0 {
        Ok(line)
    } else {
        Err(MemberFault::WrongKind)
    }
}

/// The frame whose scopes are asked for.
#[tactic(auto, unfolding(crate::specs::Arguments::scopes_asked))]
pub fn scopes_asked(alloc: Global, message: &Value) -> Result<DapCommand, ArgumentFault>
    ensures { Answers named_by result (scopes_asked (view message.now)) }
{
    let none = Value::Object(Map::new(alloc));
    let frame = need_int(arguments(message, &none)?, "frameId")?;
    Ok(DapCommand::Scopes { frame })
}

/// The reference whose variables are asked for.
#[tactic(auto, unfolding(crate::specs::Arguments::variables_asked))]
pub fn variables_asked(alloc: Global, message: &Value) -> Result<DapCommand, ArgumentFault>
    ensures { Answers named_by result (variables_asked (view message.now)) }
{
    let none = Value::Object(Map::new(alloc));
    let reference = need_int(arguments(message, &none)?, "variablesReference")?;
    Ok(DapCommand::Variables { reference })
}
