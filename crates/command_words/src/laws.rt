//! Laws of the definitions, each the contract of a function with no body.
ghost use Rattle.std.specs.Prelude.{◌≡◌, ◌<◌, ◌≤◌, ◌∷◌, [], ℕ, List, Some, None, true, codes};
ghost use Rattle.clap.specs.Walk.{Text};
ghost use Rattle.clap.specs.Faults.{is_simple_and_free};
ghost use Rattle.command_words.specs.CommandLine.{command_line};
ghost use Rattle.command_words.specs.Commands.{command_of};
ghost use Rattle.command_words.specs.declared.command.Command.TheVariants.{Serve as ServeCommand, Bulk as BulkCommand};

/// The command line is one of which clap says exactly what it takes and what it gives: no argument changes how words are read,
/// and none depends on another.
pub fn the_command_line_is_simple()
    ensures { is_simple_and_free command_line ≡ true }
{}

/// A budget that is asked for is 1 to 400,000, and a count 1 to 10,000.
pub fn numbers_are_within()
    ensures budget { (words : List Text) (budget : ℕ) → command_of words ≡ Some (ServeCommand budget) → (0 < budget) × (budget ≤ 400000) }
    ensures count { (words : List Text) (count : ℕ) → command_of words ≡ Some (BulkCommand count) → (0 < count) × (count ≤ 10000) }
{}

/// Options stand before the command or behind it, and their numbers behind a blank or an equals sign.
pub fn right_words()
    ensures serve { command_of (codes "serve" ∷ []) ≡ Some (ServeCommand 100000) }
    ensures budget { command_of (codes "serve" ∷ codes "--budget" ∷ codes "400000" ∷ []) ≡ Some (ServeCommand 400000) }
    ensures zeros { command_of (codes "serve" ∷ codes "--budget" ∷ codes "000005" ∷ []) ≡ Some (ServeCommand 5) }
    ensures first { command_of (codes "--budget" ∷ codes "5" ∷ codes "serve" ∷ []) ≡ Some (ServeCommand 5) }
    ensures equals { command_of (codes "serve" ∷ codes "--budget=5" ∷ []) ≡ Some (ServeCommand 5) }
    ensures dashes { command_of (codes "serve" ∷ codes "--" ∷ []) ≡ Some (ServeCommand 100000) }
    ensures bulk { command_of (codes "bulk" ∷ codes "--count" ∷ codes "10000" ∷ []) ≡ Some (BulkCommand 10000) }
{}

/// Words that are no command: none, a number that is too small, too great or too long, an option of the other command, a
/// position too many, an option without its value or twice, a name that is cut short, help and the version.
pub fn wrong_words()
    ensures none { command_of [] ≡ None }
    ensures zero { command_of (codes "serve" ∷ codes "--budget" ∷ codes "0" ∷ []) ≡ None }
    ensures great { command_of (codes "serve" ∷ codes "--budget" ∷ codes "400001" ∷ []) ≡ None }
    ensures long { command_of (codes "serve" ∷ codes "--budget" ∷ codes "0000005" ∷ []) ≡ None }
    ensures minus { command_of (codes "serve" ∷ codes "--budget" ∷ codes "-5" ∷ []) ≡ None }
    ensures count { command_of (codes "serve" ∷ codes "--count" ∷ codes "1" ∷ []) ≡ None }
    ensures other { command_of (codes "bulk" ∷ codes "--budget" ∷ codes "1" ∷ []) ≡ None }
    ensures left_out { command_of (codes "bulk" ∷ []) ≡ None }
    ensures many { command_of (codes "bulk" ∷ codes "--count" ∷ codes "10001" ∷ []) ≡ None }
    ensures file { command_of (codes "serve" ∷ codes "x" ∷ []) ≡ None }
    ensures empty { command_of (codes "serve" ∷ [] ∷ []) ≡ None }
    ensures last { command_of (codes "serve" ∷ codes "--budget" ∷ []) ≡ None }
    ensures twice { command_of (codes "serve" ∷ codes "--budget" ∷ codes "1" ∷ codes "--budget" ∷ codes "1" ∷ []) ≡ None }
    ensures prefix { command_of (codes "serve" ∷ codes "--bud" ∷ codes "1" ∷ []) ≡ None }
    ensures dashes { command_of (codes "serve" ∷ codes "--" ∷ codes "--budget" ∷ []) ≡ None }
    ensures help { command_of (codes "--help" ∷ []) ≡ None }
    ensures short_help { command_of (codes "-h" ∷ []) ≡ None }
    ensures version { command_of (codes "--version" ∷ []) ≡ None }
{}
