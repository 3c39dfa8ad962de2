//! The effect of one statement.
//!
//! Each call but `perform` and `effect` tells an outcome, as those of `cond_expr::evaluate`.
ghost use Rattle.std.specs.Prelude.{◌≡◌, ◌∷◌, ◌++◌, [], IfOk};
ghost use Rattle.std.specs.Option.{option_map_or};
ghost use Rattle.std.specs.Str.{chars};
ghost use Rattle.instruction_table.specs.Operations.{operation_of};
ghost use Rattle.cond_expr.specs.Outcome.{Tells, Gives, noting};
ghost use Rattle.statement_reading.specs.declared.statement.Instruction.TheVariants as instructions;
ghost use Rattle.statement_reading.specs.Bodies as bodies;
ghost use Rattle.statement_reading.specs.Readings as readings;
ghost use Rattle.statement_reading.specs.Tasks.{task, is_lasting as lasts};
ghost use Rattle.statement_reading.specs.Views.{body_of, fields_of, instruction_of, reading_of};
ghost use Rattle.conditional_asm.specs.Effects as effects;
ghost use Rattle.conditional_asm.specs.Generating.{open_quote};
ghost use Rattle.conditional_asm.specs.Troubles as troubles;
ghost use Rattle.conditional_asm.specs.declared.act.Act.TheVariants as acts;

use crate::act::{Act, Effect};
use crate::aif::aif;
use crate::branching::{actr, ago};
use crate::copying::copy_varying;
use crate::definition::defined;
use crate::generating::{generate_line, judge};
use crate::message::mnote;
use crate::repeating::once;
use crate::setting::assign;
use crate::substitution::substitute;
use crate::trouble;
use cond_expr::{Lookups, Stop};
use conditional_fields::character::is_nothing;
use hl_base::{Name, Notes, OutOfMemory, Text};
use hlasm_statements::Statement;
use instruction_table::operation;
use statement_reading::{
    Body, Fields, Instruction, Known, ReadStatement, Varying, is_generated, is_lasting, read_body,
    task_of,
};
use std::alloc::Global;

/// This act, and the note of fields that cannot be read behind that of operands that end within quotes.
fn unread(alloc: Global, act: Act, at: u32, open_end: bool, notes: &mut Notes) -> Result<Act, Stop>
    ensures { Tells (Gives act (open_quote open_end ++ troubles.unreadable at ∷ [])) notes.old notes.new result }
{
    judge(alloc, open_end, notes)?;
    notes.push(trouble::unreadable(alloc, at)?)?;
    Ok(act)
}

/// An operation that is left out.
fn leave_out(alloc: Global, name: &Name, notes: &mut Notes) -> Result<Act, Stop>
    ensures { Tells (Gives acts.Next (troubles.left_out (chars name.now) ∷ [])) notes.old notes.new result }
{
    notes.push(trouble::left_out(alloc, name.text())?)?;
    Ok(Act::Next)
}

/// A generated statement.
fn generate<Q: Lookups>(
    alloc: Global,
    op: &Text,
    fields: &Fields,
    q: &Q,
    notes: &mut Notes,
) -> Result<Act, Stop>
    ensures { Tells (effects.doing (bodies.generates (fields_of fields.now)) [] op.now (Q.told q.now)) notes.old notes.new result }
{
    match generate_line(alloc, op, fields, q, notes) {
        Ok(line) => Ok(Act::Generate(line)),
        Err(stop) => Err(stop),
    }
}

/// END.
fn end<Q: Lookups>(
    alloc: Global,
    op: &Text,
    fields: &Fields,
    q: &Q,
    notes: &mut Notes,
) -> Result<Act, Stop>
    ensures { Tells (effects.doing (bodies.ends (fields_of fields.now)) [] op.now (Q.told q.now)) notes.old notes.new result }
{
    match generate_line(alloc, op, fields, q, notes) {
        Ok(line) => Ok(Act::End(Some(line))),
        Err(stop) => Err(stop),
    }
}

/// What is done by what the fields say, with this operation, whose name is that.
pub fn doing<Q: Lookups>(
    alloc: Global,
    body: &Body,
    name: &Name,
    op: &Text,
    q: &Q,
    notes: &mut Notes,
) -> Result<Act, Stop>
    ensures { Tells (effects.doing (body_of body.now) name.now op.now (Q.told q.now)) notes.old notes.new result }
{
    match body {
        Body::Unread(at) => unread(alloc, Act::Next, *at, false, notes),
        Body::Actr(count) => actr(alloc, count, q, notes),
        Body::Ago(goto) => ago(alloc, goto, q, notes),
        Body::Aif(choices) => aif(alloc, choices.pairs.as_slice(), q, notes),
        Body::Declares(list) => Ok(Act::Declare(list.copy(alloc)?)),
        Body::Assigns(kind, setting) => assign(alloc, *kind, setting, q, notes),
        Body::Copies(member) => Ok(Act::Copy(member.copy())),
        Body::CopiesVarying(operand) => copy_varying(alloc, operand, q, notes),
        Body::Mnote(message) => mnote(alloc, message, q, notes),
        Body::Generates(fields) => generate(alloc, op, fields, q, notes),
        Body::GeneratesUnread(at, open_end) => unread(alloc, Act::Next, *at, *open_end, notes),
        Body::Ends(fields) => end(alloc, op, fields, q, notes),
        Body::EndsUnread(at, open_end) => unread(alloc, Act::End(None), *at, *open_end, notes),
        Body::Defines => Ok(Act::Define),
        Body::Leaves => Ok(Act::Leave(name.copy())),
        Body::Nothing => Ok(Act::Next),
        Body::LeavesOut => leave_out(alloc, name, notes),
        Body::Calls => Ok(Act::Call(name.copy())),
    }
}

/// A task behind the note of an operand field that ends within quotes.
fn run<Q: Lookups>(alloc: Global, k: &Known, q: &Q, notes: &mut Notes) -> Result<Act, Stop>
    ensures { Tells (noting (effects.said_first k.now.task k.now.open_end) (effects.doing (body_of k.now.body) k.now.name k.now.op (Q.told q.now))) notes.old notes.new result }
{
    judge(alloc, k.open_end && !is_generated(k.task), notes)?;
    doing(alloc, &k.body, &k.name, &k.op, q, notes)
}

/// A call of what is defined.
fn call(alloc: Global, name: &Name, open_end: bool, notes: &mut Notes) -> Result<Act, Stop>
    ensures { Tells (Gives (acts.Call name.now) (open_quote open_end)) notes.old notes.new result }
{
    judge(alloc, open_end, notes)?;
    Ok(Act::Call(name.copy()))
}

/// An operation with a name.
fn operate<Q: Lookups>(alloc: Global, k: &Known, q: &Q, notes: &mut Notes) -> Result<Act, Stop>
    ensures { Tells (effects.named k.now.name k.now.op k.now.task k.now.lasting k.now.open_end (body_of k.now.body) (Q.told q.now)) notes.old notes.new result }
{
    if k.lasting {
        return run(alloc, k, q, notes);
    }
    match defined(&k.name, q) {
        Ok(is_defined) => {
            if is_defined {
                return call(alloc, &k.name, k.open_end, notes);
            }
            run(alloc, k, q, notes)
        }
        Err(stop) => Err(stop),
    }
}

/// An operation that is no name.
fn complain(alloc: Global, op: &Text, open_end: bool, notes: &mut Notes) -> Result<Act, Stop>
    ensures { Tells (effects.nameless op.now open_end) notes.old notes.new result }
{
    judge(alloc, open_end, notes)?;
    if is_nothing(op.as_str()) {
        notes.push(trouble::no_operation(alloc)?)?;
        return Ok(Act::Next);
    }
    notes.push(trouble::undefined(alloc, op.as_str())?)?;
    Ok(Act::Next)
}

/// An operation that got its values and has this name: now its fields are read.
fn read_now(alloc: Global, v: &Varying, name: Name, op: Text) -> Result<Known, OutOfMemory>
    ensures { IfOk result (λ k. let does = task name (operation_of name) in
        instruction_of (instructions.Known k) ≡ readings.known name op does (lasts (operation_of name)) v.now.open_end (bodies.body does v.now.label v.now.operands)) }
{
    let meaning = operation(&name);
    let task = task_of(&name, meaning);
    let body = read_body(alloc, task, v.label.as_str(), v.operands.as_str())?;
    Ok(Known {
        name,
        op,
        task,
        lasting: is_lasting(meaning),
        open_end: v.open_end,
        body,
    })
}

/// An operation that got its values.
fn operate_now<Q: Lookups>(
    alloc: Global,
    v: &Varying,
    op: Text,
    q: &Q,
    notes: &mut Notes,
) -> Result<Act, Stop>
    ensures { Tells (option_map_or (effects.named_now v.now.label op v.now.operands v.now.open_end (Q.told q.now)) (readings.name_of op) (effects.nameless op v.now.open_end))
        notes.old notes.new result }
{
    match Name::read(op.as_str()) {
        Some(name) => {
            let k = read_now(alloc, v, name, op)?;
            operate(alloc, &k, q, notes)
        }
        None => complain(alloc, &op, v.open_end, notes),
    }
}

/// An operation with variable symbols.
fn vary<Q: Lookups>(alloc: Global, v: &Varying, q: &Q, notes: &mut Notes) -> Result<Act, Stop>
    ensures { Tells (effects.instructed (instruction_of (instructions.Varying v.now)) (Q.told q.now)) notes.old notes.new result }
{
    match substitute(alloc, &v.op, q, notes) {
        Ok(op) => operate_now(alloc, v, op, q, notes),
        Err(stop) => Err(stop),
    }
}

/// What a statement is told to do.
fn follow<Q: Lookups>(
    alloc: Global,
    instruction: &Instruction,
    q: &Q,
    notes: &mut Notes,
) -> Result<Act, Stop>
    ensures { Tells (effects.instructed (instruction_of instruction.now) (Q.told q.now)) notes.old notes.new result }
{
    match instruction {
        Instruction::Idle => Ok(Act::Next),
        Instruction::Unread(at) => unread(alloc, Act::Next, *at, false, notes),
        Instruction::Nameless(op, open_end) => complain(alloc, op, *open_end, notes),
        Instruction::Known(k) => operate(alloc, k, q, notes),
        Instruction::Varying(v) => vary(alloc, v, q, notes),
    }
}

/// What a statement that was read does, and its notes; or, where the act is `Ask`, the key whose answer is needed first and
/// was not given: then there is no note. A comment and a blank statement do nothing. A statement whose operation, generated
/// fields or operands cannot be read has the note `H010` and does nothing, but that END ends all the same. Whether MACRO,
/// MEND, MEXIT and COPY may stand where the statement stands, and whether a label that is branched to exists, its caller
/// knows (SC26-4940, "Conditional assembly language"). No text is read but the fields of an operation with variable
/// symbols.
pub fn perform<Q: Lookups>(
    alloc: Global,
    read: &ReadStatement,
    q: &Q,
) -> Result<Effect, OutOfMemory>
    ensures { IfOk result (λ e. e ≡ effects.shown (effects.effect_of (reading_of read.now) (Q.told q.now))) }
{
    let mut notes = Notes::new(alloc);
    match follow(alloc, &read.instruction, q, &mut notes) {
        Ok(act) => {
            let left = once(alloc, &notes)?;
            Ok(Effect { act, notes: left })
        }
        Err(Stop::Asked(key)) => Ok(Effect {
            act: Act::Ask(key),
            notes: Notes::new(alloc),
        }),
        Err(Stop::OutOfMemory) => Err(OutOfMemory),
    }
}

/// The same of a statement that is read for this once.
pub fn effect<Q: Lookups>(alloc: Global, s: &Statement, q: &Q) -> Result<Effect, OutOfMemory>
    ensures { IfOk result (λ e. e ≡ effects.shown (effects.effect_of (readings.read_statement s.now) (Q.told q.now))) }
{
    match ReadStatement::of(alloc, s) {
        Ok(read) => perform(alloc, &read, q),
        Err(OutOfMemory) => Err(OutOfMemory),
    }
}
