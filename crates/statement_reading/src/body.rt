//! What the fields of a statement say for a task.
ghost use Rattle.std.specs.Prelude.{◌≡◌, IfOk, List, ℕ, false};
ghost use Rattle.std.specs.Str.{chars};
ghost use Rattle.expression_grammar.specs.declared.character.Grammar.TheVariants.{Arithmetic};
ghost use Rattle.expression_grammar.specs.Readings.{read};
ghost use Rattle.conditional_fields.specs.Declarations as declared;
ghost use Rattle.statement_reading.specs.Bodies as bodies;
ghost use Rattle.statement_reading.specs.Branches as branches;
ghost use Rattle.statement_reading.specs.Fields as entries;
ghost use Rattle.statement_reading.specs.Messages as messages;
ghost use Rattle.statement_reading.specs.Settings as settings;
ghost use Rattle.statement_reading.specs.Templates as templates;
ghost use Rattle.statement_reading.specs.Views.{body_of};

use crate::branch::read_branch;
use crate::condition::{Choices, read_choices};
use crate::declaration::{read_declarations, read_member};
use crate::entry::{has_ampersand, read_template};
use crate::expression::read_number;
use crate::fields::{Fields, open_as_written, read_alone, read_fields};
use crate::message::{Message, read_message};
use crate::setting::{Setting, read_setting};
use crate::task::Task;
use conditional_fields::operand_grammar::{Expr, SyntaxFault};
use conditional_fields::{Goto, Template};
use hl_base::{Declarations, Name, OutOfMemory, SetKind};
use std::alloc::Global;

/// What the fields of a statement say for a task.
#[derive(Drop)]
pub enum Body {
    /// They cannot be read, and up to this character they can.
    Unread(u32),
    /// How many branches are left.
    Actr(Expr),
    Ago(Goto),
    Aif(Choices),
    /// GBLA, GBLB, GBLC, LCLA, LCLB, LCLC.
    Declares(Declarations),
    /// SETA, SETB, SETC.
    Assigns(SetKind, Setting),
    /// COPY.
    Copies(Name),
    /// COPY of an operand with variable symbols.
    CopiesVarying(Template),
    Mnote(Message),
    Generates(Fields),
    /// A generated statement whose fields cannot be read, and whether its operands end within quotes.
    GeneratesUnread(u32, bool),
    /// END.
    Ends(Fields),
    /// END, the same.
    EndsUnread(u32, bool),
    /// MACRO.
    Defines,
    /// MEND, MEXIT.
    Leaves,
    Nothing,
    LeavesOut,
    Calls,
}

/// ACTR.
fn actr(alloc: Global, operands: &str) -> Result<Body, OutOfMemory>
    ensures { IfOk result (λ b. body_of b ≡ bodies.or_unread bodies.actr (read Arithmetic (chars operands.now))) }
{
    match read_number(alloc, operands) {
        Ok(count) => Ok(Body::Actr(count)),
        Err(SyntaxFault::At(at)) => Ok(Body::Unread(at)),
        Err(SyntaxFault::OutOfMemory) => Err(OutOfMemory),
    }
}

/// AGO.
fn ago(alloc: Global, operands: &str) -> Result<Body, OutOfMemory>
    ensures { IfOk result (λ b. body_of b ≡ bodies.or_unread bodies.ago (branches.goto (chars operands.now))) }
{
    match read_branch(alloc, operands) {
        Ok(goto) => Ok(Body::Ago(goto)),
        Err(SyntaxFault::At(at)) => Ok(Body::Unread(at)),
        Err(SyntaxFault::OutOfMemory) => Err(OutOfMemory),
    }
}

/// AIF.
fn aif(alloc: Global, operands: &str) -> Result<Body, OutOfMemory>
    ensures { IfOk result (λ b. body_of b ≡ bodies.or_unread bodies.aif (branches.choices (chars operands.now))) }
{
    match read_choices(alloc, operands) {
        Ok(choices) => Ok(Body::Aif(choices)),
        Err(SyntaxFault::At(at)) => Ok(Body::Unread(at)),
        Err(SyntaxFault::OutOfMemory) => Err(OutOfMemory),
    }
}

/// GBLA, GBLB, GBLC, LCLA, LCLB, LCLC.
fn declares(alloc: Global, kind: SetKind, global: bool, operands: &str) -> Result<Body, OutOfMemory>
    ensures { IfOk result (λ b. body_of b ≡ bodies.or_unread bodies.declares (declared.declarations kind global (chars operands.now))) }
{
    match read_declarations(alloc, kind, global, operands) {
        Ok(list) => Ok(Body::Declares(list)),
        Err(SyntaxFault::At(at)) => Ok(Body::Unread(at)),
        Err(SyntaxFault::OutOfMemory) => Err(OutOfMemory),
    }
}

/// SETA, SETB, SETC.
fn assigns(alloc: Global, kind: SetKind, label: &str, operands: &str) -> Result<Body, OutOfMemory>
    ensures { IfOk result (λ b. body_of b ≡ bodies.or_unread (λ one. bodies.assigns kind one) (settings.setting kind (chars label.now) (chars operands.now))) }
{
    match read_setting(alloc, kind, label, operands) {
        Ok(setting) => Ok(Body::Assigns(kind, setting)),
        Err(SyntaxFault::At(at)) => Ok(Body::Unread(at)),
        Err(SyntaxFault::OutOfMemory) => Err(OutOfMemory),
    }
}

/// COPY of an operand without an ampersand.
fn copies_member(operands: &str) -> Result<Body, OutOfMemory>
    ensures { IfOk result (λ b. body_of b ≡ bodies.or_unread bodies.copies (bodies.member (chars operands.now))) }
{
    match read_member(operands) {
        Ok(name) => Ok(Body::Copies(name)),
        Err(SyntaxFault::At(at)) => Ok(Body::Unread(at)),
        Err(SyntaxFault::OutOfMemory) => Err(OutOfMemory),
    }
}

/// COPY of an operand with an ampersand.
fn copies_varying(alloc: Global, operands: &str) -> Result<Body, OutOfMemory>
    ensures { IfOk result (λ b. body_of b ≡ bodies.or_unread bodies.copies_varying (templates.template (chars operands.now))) }
{
    match read_template(alloc, operands) {
        Ok(template) => Ok(Body::CopiesVarying(template)),
        Err(SyntaxFault::At(at)) => Ok(Body::Unread(at)),
        Err(SyntaxFault::OutOfMemory) => Err(OutOfMemory),
    }
}

/// COPY.
fn copies(alloc: Global, operands: &str) -> Result<Body, OutOfMemory>
    ensures { IfOk result (λ b. body_of b ≡ bodies.copying (chars operands.now)) }
{
    if has_ampersand(operands) {
        return copies_varying(alloc, operands);
    }
    copies_member(operands)
}

/// MNOTE.
fn mnote(alloc: Global, operands: &str) -> Result<Body, OutOfMemory>
    ensures { IfOk result (λ b. body_of b ≡ bodies.or_unread bodies.mnote (messages.message (chars operands.now))) }
{
    match read_message(alloc, operands) {
        Ok(message) => Ok(Body::Mnote(message)),
        Err(SyntaxFault::At(at)) => Ok(Body::Unread(at)),
        Err(SyntaxFault::OutOfMemory) => Err(OutOfMemory),
    }
}

/// A generated statement.
fn generates(alloc: Global, label: &str, operands: &str) -> Result<Body, OutOfMemory>
    ensures { IfOk result (λ b. body_of b ≡ bodies.generating (entries.open_as_written (chars operands.now)) (entries.fields (chars label.now) (chars operands.now))) }
{
    match read_fields(alloc, label, operands) {
        Ok(fields) => Ok(Body::Generates(fields)),
        Err(SyntaxFault::At(at)) => Ok(Body::GeneratesUnread(
            at,
            open_as_written(alloc, operands)?,
        )),
        Err(SyntaxFault::OutOfMemory) => Err(OutOfMemory),
    }
}

/// A generated statement without operands.
fn generates_alone(alloc: Global, label: &str) -> Result<Body, OutOfMemory>
    ensures { IfOk result (λ b. body_of b ≡ bodies.generating false (entries.alone (chars label.now))) }
{
    match read_alone(alloc, label) {
        Ok(fields) => Ok(Body::Generates(fields)),
        Err(SyntaxFault::At(at)) => Ok(Body::GeneratesUnread(at, false)),
        Err(SyntaxFault::OutOfMemory) => Err(OutOfMemory),
    }
}

/// END.
fn ends(alloc: Global, label: &str, operands: &str) -> Result<Body, OutOfMemory>
    ensures { IfOk result (λ b. body_of b ≡ bodies.ending (entries.open_as_written (chars operands.now)) (entries.fields (chars label.now) (chars operands.now))) }
{
    match read_fields(alloc, label, operands) {
        Ok(fields) => Ok(Body::Ends(fields)),
        Err(SyntaxFault::At(at)) => Ok(Body::EndsUnread(at, open_as_written(alloc, operands)?)),
        Err(SyntaxFault::OutOfMemory) => Err(OutOfMemory),
    }
}

/// Reads what name entry and operands say for a task: only what the task needs of them. Fields that cannot be read have a
/// body too.
pub fn read_body(
    alloc: Global,
    task: Task,
    label: &str,
    operands: &str,
) -> Result<Body, OutOfMemory>
    ensures { IfOk result (λ b. body_of b ≡ bodies.body task (chars label.now) (chars operands.now)) }
{
    match task {
        Task::Actr => actr(alloc, operands),
        Task::Ago => ago(alloc, operands),
        Task::Aif => aif(alloc, operands),
        Task::Declare(kind, global) => declares(alloc, kind, global, operands),
        Task::Assign(kind) => assigns(alloc, kind, label, operands),
        Task::Define => Ok(Body::Defines),
        Task::Leave => Ok(Body::Leaves),
        Task::Copy => copies(alloc, operands),
        Task::Mnote => mnote(alloc, operands),
        Task::Nothing => Ok(Body::Nothing),
        Task::Generate => generates(alloc, label, operands),
        Task::GenerateAlone => generates_alone(alloc, label),
        Task::End => ends(alloc, label, operands),
        Task::LeaveOut => Ok(Body::LeavesOut),
        Task::Call => Ok(Body::Calls),
    }
}
