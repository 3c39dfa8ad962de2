//! The figures of an assembly: how many points, symbols and notes there are, and what the global SET symbols hold in the end.
ghost use Rattle.std.specs.Prelude.{◌≡◌, find};
ghost use Rattle.std.specs.Option.{option_copied};
ghost use Rattle.program_assembly.specs.Globals as rules;

use hl_base::{Name, SetValue};
use trace_values::{Setting, Settings};

/// How much an assembly of a program has.
#[derive(Clone, Copy, Debug, PartialEq, Eq)]
pub struct Summary {
    /// How many points its trace has.
    pub points: u32,

    /// How many ordinary symbols it defines.
    pub symbols: u32,

    /// How many notes are reported of it.
    pub diagnostics: u32,
}

/// What an assembly of a program comes to in figures.
#[derive(Drop)]
pub struct Figures {
    pub summary: Summary,

    /// The global SET symbols with their values behind the last point, as an assembly has them.
    pub globals: Settings,
}

/// Whether a value is one of type A.
fn is_number(value: &SetValue) -> bool
    ensures { result ≡ rules.is_number value.now }
{
    match value {
        SetValue::A(_) => true,
        SetValue::B(_) => false,
        SetValue::C(_) => false,
    }
}

/// The number that a value of type A is.
fn number_in(value: &SetValue) -> Option<i32>
    ensures { result ≡ rules.number_in value.now }
{
    match value {
        SetValue::A(number) => Some(*number),
        SetValue::B(_) => None,
        SetValue::C(_) => None,
    }
}

/// Whether a setting is of the SETA symbol of a name without subscript.
fn is_scalar(name: &Name, setting: &Setting) -> bool
    ensures { result ≡ rules.is_scalar name.now setting.now }
{
    setting.element == 0 && setting.name.text() == name.text() && is_number(&setting.value)
}

/// The first of these settings that is of that symbol.
fn scalar_in<'a>(name: &Name, settings: &'a [Setting]) -> Option<&'a Setting>
    ensures { option_copied result ≡ find (rules.is_scalar name.now) settings.now }
{
    settings.iter().find(|setting| is_scalar(name, setting))
}

impl Figures {
    /// The number that the global SETA symbol of a name holds in the end; none where no such symbol was declared without a
    /// subscript.
    pub fn global(&self, name: &Name) -> Option<i32>
        ensures { result ≡ rules.number_of name.now self.now.globals }
    {
        match scalar_in(name, self.globals.as_slice()) {
            Some(setting) => number_in(&setting.value),
            None => None,
        }
    }
}
