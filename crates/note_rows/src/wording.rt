//! The table of notes.
ghost use Rattle.std.specs.Prelude.{◌≡◌};
ghost use Rattle.note_rows.specs.Table as table;
ghost use Rattle.note_rows.specs.Inside.{line_of};

use crate::Row;
use hl_base::Severity::{Error, Warning};
use hl_base::{Name, Severity, Text};

/// What stands within a text.
#[derive(Clone, Copy)]
pub(crate) enum Inserted<'a> {
    Nothing,
    Word(&'a str),
    Number(u32),
}

/// A row: its code, its severity, and its text in three parts.
#[derive(Clone, Copy)]
pub(crate) struct Wording<'a> {
    pub(crate) code: u16,
    pub(crate) severity: Severity,
    pub(crate) before: &'a str,
    pub(crate) inserted: Inserted<'a>,
    pub(crate) behind: &'a str,
}

/// A text alone.
fn plain<'a>(code: u16, severity: Severity, text: &'a str) -> Wording<'a>
    ensures { line_of result ≡ table.plain code severity text.now }
{
    Wording {
        code,
        severity,
        before: text,
        inserted: Inserted::Nothing,
        behind: "",
    }
}

/// A text with a name in it.
fn named<'a>(
    code: u16,
    severity: Severity,
    before: &'a str,
    name: &'a Name,
    behind: &'a str,
) -> Wording<'a>
    ensures { line_of result ≡ table.named code severity before.now name.now behind.now }
{
    Wording {
        code,
        severity,
        before,
        inserted: Inserted::Word(name.text()),
        behind,
    }
}

/// A text with what the author wrote in it.
fn quoting<'a>(
    code: u16,
    severity: Severity,
    before: &'a str,
    text: &'a Text,
    behind: &'a str,
) -> Wording<'a>
    ensures { line_of result ≡ table.quoting code severity before.now text.now behind.now }
{
    Wording {
        code,
        severity,
        before,
        inserted: Inserted::Word(text.as_str()),
        behind,
    }
}

/// A text with a number in it.
fn counting<'a>(
    code: u16,
    severity: Severity,
    before: &'a str,
    number: u32,
    behind: &'a str,
) -> Wording<'a>
    ensures { line_of result ≡ table.counting code severity before.now number behind.now }
{
    Wording {
        code,
        severity,
        before,
        inserted: Inserted::Number(number),
        behind,
    }
}

/// The row of a note.
pub(crate) fn wording_of(row: &Row) -> Wording<'_>
    ensures { line_of result ≡ table.line row.now }
{
    match row {
        Row::MarginText => plain(
            1,
            Error,
            "columns 1 to 15 of a continuation line are not blank",
        ),
        Row::SurplusLines => plain(2, Error, "more than nine continuation lines"),
        Row::MissingEnd => plain(3, Warning, "END statement is missing"),
        Row::NoOperation => plain(4, Error, "the statement has no operation"),
        Row::MissingLine => plain(
            5,
            Warning,
            "the text ends where a continuation line is expected",
        ),
        Row::OpenApostrophe => plain(6, Error, "an apostrophe is not closed"),
        Row::Unreadable(number) => counting(
            10,
            Error,
            "the operand cannot be read at character ",
            *number,
            "",
        ),
        Row::NoValue(name) => named(20, Error, "&", name, " has no value here"),
        Row::OtherType(name) => named(21, Error, "&", name, " has another type"),
        Row::BadSubscript(name) => named(22, Error, "subscript of &", name, " is out of range"),
        Row::Overflow => plain(23, Error, "arithmetic result does not fit 32 bits"),
        Row::NoLength(text) => quoting(24, Warning, "symbol ", text, " has no length attribute"),
        Row::DeclaredTwice(name) => named(25, Error, "&", name, " is already declared"),
        Row::NoNumber(name) => named(26, Error, "value of &", name, " is not a number"),
        Row::OutsideText => plain(27, Error, "substring begins outside the text"),
        Row::TextTooLong => plain(28, Error, "text is longer than 1024 characters"),
        Row::NoSequenceSymbol(name) => named(30, Error, "sequence symbol .", name, " is not found"),
        Row::BranchLimit => plain(31, Error, "the ACTR limit is reached"),
        Row::NoRecord => plain(32, Warning, "there is no further record"),
        Row::UndefinedOperation(text) => quoting(40, Error, "operation ", text, " is not defined"),
        Row::LeftOutOperation(text) => quoting(
            41,
            Warning,
            "operation ",
            text,
            " is left out of this profile",
        ),
        Row::MissingMend => plain(42, Error, "macro definition has no MEND"),
        Row::BadPrototype => plain(43, Error, "macro prototype cannot be read"),
        Row::OutsideMacro(name) => named(44, Error, "", name, " stands outside a macro"),
        Row::KeywordTwice(name) => named(45, Warning, "keyword ", name, " is given twice"),
        Row::NestedTooDeep => plain(46, Error, "calls nest deeper than 128"),
        Row::AbsentMember(name) => named(47, Error, "member ", name, " is not found"),
        Row::RecursiveMember(name) => named(48, Error, "member ", name, " copies itself"),
        Row::UnreadableMember(name) => named(49, Error, "member ", name, " cannot be read"),
        Row::DefinitionTooLong(name) => named(
            50,
            Error,
            "definition of ",
            name,
            " has more than 65536 statements",
        ),
        Row::BadConstant => plain(60, Error, "the constant cannot be read"),
        Row::FloatingPoint => plain(61, Warning, "floating-point constant is not read"),
        Row::BadNominalValue => plain(62, Error, "nominal value is wrong for its type"),
        Row::ValueTooLong => plain(63, Error, "value does not fit its length"),
        Row::UnknownValue => plain(64, Error, "a value that is already known is needed"),
        Row::OutsideSection => plain(65, Error, "ORG leaves its section"),
        Row::SectionTooLong => plain(66, Error, "section is longer than 16777216 bytes"),
        Row::DefinedTwice(name) => named(70, Error, "symbol ", name, " is already defined"),
        Row::UndefinedSymbol(name) => named(71, Error, "symbol ", name, " is not defined"),
        Row::NotSimple => plain(
            72,
            Error,
            "the expression is not absolute or simply relocatable",
        ),
        Row::EquWithoutValue(name) => named(73, Error, "EQU ", name, " has no value"),
        Row::MisplacedQualifier(name) => named(
            74,
            Error,
            "qualifier ",
            name,
            " stands in a wrong place",
        ),
        Row::WrongOperandCount => plain(80, Error, "wrong number of operands"),
        Row::BadRegister => plain(81, Error, "register or mask is not 0 to 15"),
        Row::BadVectorRegister => plain(81, Error, "vector register is not 0 to 31"),
        Row::BadImmediate => plain(82, Error, "immediate value is out of range"),
        Row::NoUsingRange => plain(83, Error, "no USING range covers the address"),
        Row::BadDisplacement => plain(84, Error, "displacement is out of range"),
        Row::BadLength => plain(85, Error, "length is out of range"),
        Row::OddTarget => plain(86, Error, "relative target is odd"),
        Row::BadUsing => plain(87, Error, "USING or DROP cannot be read"),
        Row::UnusedRegister(number) => counting(
            88,
            Warning,
            "register ",
            *number,
            " is not in use",
        ),
        Row::UnusedQualifier(name) => named(89, Error, "qualifier ", name, " is not in use"),
        Row::BudgetUsedUp => plain(90, Error, "the statement budget is used up"),
        Row::Author(severity, text) => quoting(0, *severity, "", text, ""),
    }
}
