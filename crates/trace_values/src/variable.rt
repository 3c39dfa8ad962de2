//! Variable symbols as they are shown, and what a statement sets.
ghost use Rattle.std.specs.Prelude.{◌≡◌, [], ◌∷◌, ◌++◌, IfOk, OnOk, OnErr};

use hl_base::{Name, OutOfMemory, SetValue, Text};
use std::alloc::Global;
use std::marker::Model;

/// A variable symbol as a debugger shows it: its name with its subscript, where it has one, and its value as text.
#[derive(Drop)]
pub struct Variable {
    pub name: Text,
    pub value: Text,
    pub global: bool,
}

impl Variable {
    /// Another variable that shows the same.
    pub fn copy(&self, alloc: Global) -> Result<Variable, OutOfMemory>
        ensures { IfOk result (λ v. v ≡ self.now) }
    {
        Ok(Variable {
            name: self.name.copy(alloc)?,
            value: self.value.copy(alloc)?,
            global: self.global,
        })
    }
}

/// Variables in order. Contracts see the list.
#[derive(Drop)]
pub struct Variables {
    variables: Vec<Variable>,
}

impl Model for Variables {
    ghost use Rattle.std.specs.Prelude.{List};
    ghost use Rattle.trace_values.specs.declared.variable.Variable.{Variable};

    ghost Value = { List Variable };

    ghost view = { λ s. s.variables.items };
}

impl Variables {
    /// No variable.
    pub fn new(alloc: Global) -> Variables
        ensures { result ≡ [] }
    {
        Variables {
            variables: Vec::new(alloc),
        }
    }

    /// Adds a variable behind those that are there. An `Err` changes nothing.
    pub fn push(&mut self, variable: Variable) -> Result<(), OutOfMemory>
        ensures ok { OnOk result (self.new ≡ self.old ++ variable ∷ []) }
        ensures err { OnErr result (self.new ≡ self.old) }
    {
        self.variables.push(variable)?;
        Ok(())
    }

    /// The variables in order.
    pub fn as_slice(&self) -> &[Variable]
        ensures { result.now ≡ self.now }
    {
        self.variables.as_slice()
    }

    /// Another list of the same variables.
    pub fn copy(&self, alloc: Global) -> Result<Variables, OutOfMemory>
        ensures { IfOk result (λ s. s ≡ self.now) }
    {
        let mut variables = Vec::with_capacity(alloc, self.variables.len())?;
        for variable in &self.variables {
            variables.push(variable.copy(alloc)?)?;
        }
        Ok(Variables { variables })
    }
}

/// One element of a variable symbol gets a value; the element is 0 where it has no subscript.
#[derive(Drop)]
pub struct Setting {
    pub name: Name,
    pub element: u32,
    pub value: SetValue,
}

impl Setting {
    /// Another setting that says the same.
    pub fn copy(&self, alloc: Global) -> Result<Setting, OutOfMemory>
        ensures { IfOk result (λ s. s ≡ self.now) }
    {
        Ok(Setting {
            name: self.name.copy(),
            element: self.element,
            value: self.value.copy(alloc)?,
        })
    }
}

/// Settings in order. Contracts see the list.
#[derive(Drop)]
pub struct Settings {
    settings: Vec<Setting>,
}

impl Model for Settings {
    ghost use Rattle.std.specs.Prelude.{List};
    ghost use Rattle.trace_values.specs.declared.variable.Setting.{Setting};

    ghost Value = { List Setting };

    ghost view = { λ s. s.settings.items };
}

impl Settings {
    /// No setting.
    pub fn new(alloc: Global) -> Settings
        ensures { result ≡ [] }
    {
        Settings {
            settings: Vec::new(alloc),
        }
    }

    /// Adds a setting behind those that are there. An `Err` changes nothing.
    pub fn push(&mut self, setting: Setting) -> Result<(), OutOfMemory>
        ensures ok { OnOk result (self.new ≡ self.old ++ setting ∷ []) }
        ensures err { OnErr result (self.new ≡ self.old) }
    {
        self.settings.push(setting)?;
        Ok(())
    }

    /// The settings in order.
    pub fn as_slice(&self) -> &[Setting]
        ensures { result.now ≡ self.now }
    {
        self.settings.as_slice()
    }

    /// Another list of the same settings.
    pub fn copy(&self, alloc: Global) -> Result<Settings, OutOfMemory>
        ensures { IfOk result (λ s. s ≡ self.now) }
    {
        let mut settings = Vec::with_capacity(alloc, self.settings.len())?;
        for setting in &self.settings {
            settings.push(setting.copy(alloc)?)?;
        }
        Ok(Settings { settings })
    }
}
