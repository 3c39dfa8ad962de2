//! Which system variables statements name.
ghost use Rattle.std.specs.Prelude.{◌≡◌, ◌&&◌, not, length, take_while, if◌then◌else◌, ◌==◌};
ghost use Rattle.std.specs.Str.{chars};
ghost use Rattle.hl_base.specs.Symbols.{is_symbol_character};
ghost use Rattle.macro_library.specs.Variables as variables;

use crate::line::name_of;
use hl_base::is_symbol_character;
use hlasm_statements::split_columns;
use statement_listing::Line;
use statement_listing::conditional_fields::character::head;

/// Which of the system variables are named.
#[derive(Clone, Copy, Debug, PartialEq, Eq)]
pub struct SystemVariables {
    pub sysndx: bool,
    pub sysect: bool,
    pub syslist: bool,
    pub sysmac: bool,
    pub sysnest: bool,
    pub sysparm: bool,
}

/// None of them.
pub(crate) const NONE_NAMED: SystemVariables = SystemVariables {
    sysndx: false,
    sysect: false,
    syslist: false,
    sysmac: false,
    sysnest: false,
    sysparm: false,
};

/// Those of two.
pub(crate) fn joined(a: SystemVariables, b: SystemVariables) -> SystemVariables
    ensures { result ≡ variables.joined a b }
{
    SystemVariables {
        sysndx: a.sysndx || b.sysndx,
        sysect: a.sysect || b.sysect,
        syslist: a.syslist || b.syslist,
        sysmac: a.sysmac || b.sysmac,
        sysnest: a.sysnest || b.sysnest,
        sysparm: a.sysparm || b.sysparm,
    }
}

/// How many letters and digits a text begins with.
fn letter_count(text: &str) -> usize
    ensures { result ≡ length (take_while is_symbol_character (chars text.now)) }
{
    text.chars().take_while(|c| is_symbol_character(*c)).count()
}

/// The letters and digits at the front of a text.
fn front_name(text: &str) -> &str
    ensures { chars result.now ≡ take_while is_symbol_character (chars text.now) }
{
    split_columns(text, letter_count(text)).0
}

/// The one that is named by the letters and digits at the front of a text.
fn named_first(text: &str) -> SystemVariables
    ensures { result ≡ variables.named_first (chars text.now) }
{
    match name_of(front_name(text)) {
        Some(name) => {
            let name = name.text();
            SystemVariables {
                sysndx: name == "SYSNDX",
                sysect: name == "SYSECT",
                syslist: name == "SYSLIST",
                sysmac: name == "SYSMAC",
                sysnest: name == "SYSNEST",
                sysparm: name == "SYSPARM",
            }
        }
        None => NONE_NAMED,
    }
}

/// Those so far and, where this text stands behind an ampersand and does not begin with one, the one that it names.
fn with_next(named: SystemVariables, after: bool, c: char, text: &str) -> SystemVariables
    ensures { result ≡ (if after && not (c == 38) then variables.joined named (variables.named_first (chars text.now)) else named) }
{
    if after && c != '&' {
        return joined(named, named_first(text));
    }
    named
}

/// Whether a character begins a variable symbol: it is an ampersand, and not the second of two.
fn begins(after: bool, c: char) -> bool
    ensures { result ≡ (not after && (c == 38)) }
{
    !after && c == '&'
}

/// Those that are named behind an ampersand in a text.
fn named_in(text: &str) -> SystemVariables
    ensures { result ≡ variables.named_in (chars text.now) }
{
    let mut named = NONE_NAMED;
    let mut after = false;
    let mut left = text;
    while let Some((c, rest)) = head(left) {
        named = with_next(named, after, c, left);
        after = begins(after, c);
        left = rest;
    }
    named
}

/// Those that a line names.
fn named_by(line: &Line) -> SystemVariables
    ensures { result ≡ variables.named_by line.now.statement }
{
    if line.reading().is_none() {
        return NONE_NAMED;
    }
    let statement = line.statement();
    let label = named_in(statement.label.as_str());
    let op = named_in(statement.op.as_str());
    joined(label, joined(op, named_in(statement.operands.as_str())))
}

/// Those that a line names, where so many definitions are begun before it.
pub(crate) fn named_within(begun: usize, line: &Line) -> SystemVariables
    ensures { result ≡ (if begun == 0 then variables.named_by line.now.statement else variables.none_named) }
{
    if begun == 0 {
        return named_by(line);
    }
    NONE_NAMED
}
