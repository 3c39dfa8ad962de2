//! Commands by their names.
ghost use Rattle.std.specs.Prelude.{◌≡◌};
ghost use Rattle.dap_messages.specs.Requests.{name_of, bare_of};

use crate::requests::DapCommand;

impl DapCommand {
    /// Its name, which a response to it repeats.
    pub fn name(&self) -> &'static str
        ensures { result.now ≡ name_of self.now }
    {
        match self {
            DapCommand::Initialize => "initialize",
            DapCommand::Launch { .. } => "launch",
            DapCommand::SetBreakpoints { .. } => "setBreakpoints",
            DapCommand::ConfigurationDone => "configurationDone",
            DapCommand::Threads => "threads",
            DapCommand::StackTrace => "stackTrace",
            DapCommand::Scopes { .. } => "scopes",
            DapCommand::Variables { .. } => "variables",
            DapCommand::Next => "next",
            DapCommand::StepIn => "stepIn",
            DapCommand::StepOut => "stepOut",
            DapCommand::Continue => "continue",
            DapCommand::Disconnect => "disconnect",
        }
    }
}

/// The command of a name, of those that read no arguments.
pub fn bare(name: &str) -> Option<DapCommand>
    ensures { result ≡ bare_of name.now }
{
    match name {
        "configurationDone" => Some(DapCommand::ConfigurationDone),
        "threads" => Some(DapCommand::Threads),
        "stackTrace" => Some(DapCommand::StackTrace),
        "next" => Some(DapCommand::Next),
        "stepIn" => Some(DapCommand::StepIn),
        "stepOut" => Some(DapCommand::StepOut),
        "continue" => Some(DapCommand::Continue),
        "disconnect" => Some(DapCommand::Disconnect),
        _ => None,
    }
}
