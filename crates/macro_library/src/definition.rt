//! Definitions.
ghost use Rattle.std.specs.Prelude.{◌≡◌, ◌↔◌, Some, IsTrue, IfOk};
ghost use Rattle.macro_binding.specs.Prototypes.{Prototype as PrototypeRead};
ghost use Rattle.macro_library.specs.Contents as contents;
ghost use Rattle.macro_library.specs.Definitions as definitions;
ghost use Rattle.macro_library.specs.Later as later;
ghost use Rattle.macro_library.specs.Variables as variables;

use crate::content::{line_number, same_line, same_lines};
use crate::copying::read_body;
use crate::extent::{behind_macro, counted, first_plain, line_count};
use crate::survey::{Survey, survey_of};
use crate::{DefFault, Members, SystemVariables};
use hl_base::{Origin, OutOfMemory};
use hlasm_statements::Statement;
use macro_binding::{Prototype, read_prototype};
use statement_listing::{Line, Listing};
use std::alloc::Global;
use std::marker::Model;
use std::rc::Rc;

/// A macro definition. Contracts see its prototype with the place where that stands, its statements behind the prototype with
/// those of copied members in place, each with the place where it stands, and the system variables that they name.
#[derive(Drop)]
pub struct Def {
    line: Line,
    prototype: Rc<Prototype>,
    list: Listing,
    variables: SystemVariables,
    copies_later: bool,
    /// The number of its content.
    number: u64,
}

impl Model for Def {
    ghost use Rattle.macro_library.specs.Definitions.{Definition};
    ghost use Rattle.macro_library.specs.Held.{definition_in, IsKept};

    ghost Value = { Definition };

    ghost view = { λ d. definition_in d.line d.prototype.value d.list d.variables };

    ghost invariant = { λ d. IsKept d.line d.prototype.value d.list d.variables d.copies_later d.number };
}

impl Def {
    /// The definition with this prototype and these statements.
    fn of(
        alloc: Global,
        line: &Line,
        prototype: Prototype,
        lines: Vec<Line>,
    ) -> Result<Def, OutOfMemory>
        requires { definitions.prototype_at line.now ≡ Some prototype }
        ensures { IfOk result (λ d. d ≡ definitions.defined line.now prototype lines.items) }
    {
        let Survey {
            variables,
            copies_later,
            number,
        } = survey_of(line_number(0, line), lines.as_slice())?;
        Ok(Def {
            line: line.share()?,
            prototype: Rc::new(alloc, prototype)?,
            list: Listing::of_lines(alloc, lines)?,
            variables,
            copies_later,
            number,
        })
    }

    /// Where its prototype stands.
    pub fn origin(&self) -> Origin
        ensures { result ≡ self.now.origin }
    {
        self.line.origin()
    }

    /// Its prototype as it is written.
    pub fn statement(&self) -> &Statement
        ensures { result.now ≡ self.now.statement }
    {
        self.line.statement()
    }

    /// Its prototype as it is read, which is shared.
    pub fn prototype(&self) -> &Rc<Prototype>
        ensures value { result.now.value ≡ self.now.prototype }
        ensures read { definitions.prototype_at (definitions.heading self.now) ≡ Some self.now.prototype }
    {
        &self.prototype
    }

    /// Its statements behind the prototype.
    pub fn list(&self) -> &Listing
        ensures { result.now ≡ self.now.list }
    {
        &self.list
    }

    /// The system variables that its statements name.
    pub fn variables(&self) -> SystemVariables
        ensures value { result ≡ self.now.variables }
        ensures named { result ≡ variables.variables_of self.now.list }
    {
        self.variables
    }

    /// Whether a statement of it may copy a member when the macro is called: COPY whose operand as written is no symbol, or an
    /// operation with variable symbols.
    pub fn copies_later(&self) -> bool
        ensures { result ≡ later.copies_later self.now.list }
    {
        self.copies_later
    }

    /// A number by which it is told apart: definitions with one content have one number.
    pub fn number(&self) -> u64
        ensures { result ≡ contents.content_number (contents.content_of self.now) }
    {
        self.number
    }

    /// Whether two definitions say the same at the same places. Their numbers are compared first.
    pub fn same(&self, other: &Def) -> bool
        ensures { IsTrue result ↔ (contents.content_of self.now ≡ contents.content_of other.now) }
    {
        self.number == other.number
            && same_line(&self.line, &other.line)
            && same_lines(self.list.lines(), other.list.lines())
    }
}

/// The definition that begins at the MACRO of this number in a list, where this was told of members; or its first fault;
/// `Asks` where nothing was told of the member that the COPY met next names. `OutOfMemory` also where it has more lines than
/// can be counted.
pub fn read_definition(
    alloc: Global,
    list: &Listing,
    start: u32,
    members: &Members,
) -> Result<Def, DefFault>
    ensures { definitions.Answers (definitions.definition_of members.now list.now start) result }
{
    let lines = behind_macro(list.lines(), start);
    let count = line_count(lines)?;
    let ended = count.is_some();
    let Some(first) = first_plain(counted(lines, count)) else {
        return Err(DefFault::NoMend);
    };
    let Some(prototype) = read_prototype(alloc, first.line.statement())? else {
        return Err(DefFault::BadPrototype);
    };
    match read_body(alloc, members, prototype.operation(), first.rest, ended) {
        Ok(body) => Ok(Def::of(alloc, first.line, prototype, body)?),
        Err(fault) => Err(fault),
    }
}
