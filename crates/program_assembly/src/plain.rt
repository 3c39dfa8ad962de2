//! Assembling by the machine that expands HLASM.
ghost use Rattle.program_assembly.specs.Assembly.{AssembliesArePlain};

use expansion_step::runs_are_expansions;
use macro_expand::HlasmLanguage;
use program_world::ProgramWorld;
use text_pool::Present;

/// What an assembly by the machine that expands HLASM says of a program is what the program's plain expansion says. The function
/// does nothing: its contract is a law, and says the same for all that may be present.
pub fn assemblies_are_plain<P: Present>()
    ensures { AssembliesArePlain }
{
    runs_are_expansions::<HlasmLanguage, ProgramWorld<P>>();
}
