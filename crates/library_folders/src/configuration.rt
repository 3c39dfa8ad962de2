//! What the two configuration files say.
ghost use Rattle.std.specs.Prelude.{◌≡◌, []};

use program_config::{Groups, Programs};
use std::alloc::Global;

/// The groups of library folders, and which programs have which group.
#[derive(Debug, Drop)]
pub struct Configuration {
    pub groups: Groups,
    pub programs: Programs,
}

impl Configuration {
    /// No group and no program, as without configuration files. It takes no memory.
    pub fn new(alloc: Global) -> Configuration
        ensures groups { result.groups ≡ [] }
        ensures programs { result.programs ≡ [] }
    {
        Configuration {
            groups: Groups::new(alloc),
            programs: Programs::new(alloc),
        }
    }
}
