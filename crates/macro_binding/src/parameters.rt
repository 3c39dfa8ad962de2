//! The parameters of a prototype, in order and by their names.
ghost use Rattle.std.specs.Prelude.{◌≡◌, ◌+◌, [], ◌∷◌, ◌++◌, length, IfOk, OnOk, false, option_map, slice_get, if◌then◌else◌};
ghost use Rattle.std.specs.Option.{option_copied};
ghost use Rattle.macro_binding.specs.Lent.{parameter_seen};
ghost use Rattle.macro_binding.specs.Prototypes.{is_system, is_taken, is_positional, positional_count, role_of};

use crate::role::Role;
use hl_base::{Name, OutOfMemory};
use indexmap::IndexMap;
use std::alloc::Global;
use std::marker::Model;

/// The parameters of a prototype. Contracts see the list of them.
#[derive(Drop)]
pub struct Parameters {
    roles: IndexMap<String, Role>,
    positionals: u32,
}

impl Model for Parameters {
    ghost use Rattle.std.specs.Prelude.{◌≡◌, List};
    ghost use Rattle.macro_binding.specs.Prototypes.{Parameter, positional_count};
    ghost use Rattle.macro_binding.specs.Entries.{parameters_in};

    ghost Value = { List Parameter };

    ghost view = { λ s. parameters_in s.roles };

    ghost invariant = { λ s. s.positionals ≡ positional_count (parameters_in s.roles) };
}

/// A parameter: its name, upper-cased, and what it stands for.
#[derive(Clone, Copy)]
pub struct Parameter<'a> {
    pub name: &'a str,
    pub role: &'a Role,
}

/// Whether a name is that of a system variable (SC26-4940, "System variable symbols").
fn is_system(name: &Name) -> bool
    ensures { result ≡ is_system name.now }
{
    matches!(
        name.text(),
        "SYSNDX" | "SYSECT" | "SYSLIST" | "SYSMAC" | "SYSNEST" | "SYSPARM"
    )
}

/// How many positional parameters there are with one more of this role.
fn counted(role: &Role, positionals: u32) -> Result<u32, OutOfMemory>
    ensures { IfOk result (λ n. n ≡ positionals + (if is_positional role.now then 1 else 0)) }
{
    match role {
        Role::Positional(_) => positionals.checked_add(1).ok_or(OutOfMemory),
        Role::NameEntry | Role::Keyword(_) => Ok(positionals),
    }
}

impl Parameters {
    /// No parameter.
    pub(crate) fn new(alloc: Global) -> Parameters
        ensures { result ≡ [] }
    {
        Parameters {
            roles: IndexMap::new(alloc),
            positionals: 0,
        }
    }

    /// What the parameter of a name stands for.
    pub fn role(&self, name: &Name) -> Option<&Role>
        ensures { option_copied result ≡ role_of self.now name.now }
    {
        self.roles.get(name.text())
    }

    /// The parameter at a place, from 0.
    pub fn at(&self, place: usize) -> Option<Parameter<'_>>
        ensures { option_map parameter_seen result ≡ slice_get self.now place }
    {
        match self.roles.get_index(place) {
            Some((name, role)) => Some(Parameter {
                name: name.as_str(),
                role,
            }),
            None => None,
        }
    }

    /// Whether no further parameter may have this name.
    pub(crate) fn is_taken(&self, name: &Name) -> bool
        ensures { result ≡ is_taken self.now name.now }
    {
        is_system(name) || self.role(name).is_some()
    }

    /// How many of them are positional.
    pub(crate) fn positional_count(&self) -> u32
        ensures { result ≡ positional_count self.now }
    {
        self.positionals
    }

    /// Adds a parameter behind those that are there. What an `Err` leaves is of no use.
    pub(crate) fn push(&mut self, alloc: Global, name: &Name, role: Role) -> Result<(), OutOfMemory>
        requires { is_taken self.old name.now ≡ false }
        ensures { OnOk result (self.new ≡ self.old ++ record { name = name.now; role = role } ∷ []) }
    {
        let positionals = counted(&role, self.positionals)?;
        let key = String::from_str(alloc, name.text())?;
        self.roles.insert(key, role)?;
        self.positionals = positionals;
        Ok(())
    }
}
