//! What holds of the world of a program.
ghost use Rattle.asking_core.specs.Worlds.{Fits};
ghost use Rattle.call_sites.specs.Rules.{is_moving, is_writable, rebased};
ghost use Rattle.program_world.specs.World.{program_world};

/// The world of a program fits the rules on keys. It does nothing; its contract is the claim.
pub fn the_world_fits()
    ensures { Fits program_world is_moving is_writable rebased }
{}
