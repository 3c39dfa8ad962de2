//! What holds of USING and DROP. The functions do nothing: their contracts are the laws.
ghost use Rattle.std.specs.Prelude.{◌≡◌, ◌≢◌, ℕ, List, [], Option, true};
ghost use Rattle.ordinary_symbols.specs.Known.{Knowledge};
ghost use Rattle.trace_values.specs.declared.section.Reloc.{Reloc};
ghost use Rattle.using_ranges.specs.Ranges.{Held};
ghost use Rattle.using_statements.specs.Behind.{behind_drop, behind_using};
ghost use Rattle.using_statements.specs.Faults.{has_fault};
ghost use Rattle.using_statements.specs.Said.{said_of_drop, said_of_using};

/// A USING of which something is said changes nothing.
pub fn faulty_usings_change_nothing()
    ensures { (known : Knowledge) (here : Option Reloc) (held : Held) (field : List ℕ) →
        said_of_using known here field ≢ [] → behind_using known here held field ≡ held }
{}

/// A DROP of which more is said than that registers are not in use changes nothing.
pub fn faulty_drops_change_nothing()
    ensures { (known : Knowledge) (here : Option Reloc) (held : Held) (field : List ℕ) →
        has_fault (said_of_drop known here held field) ≡ true → behind_drop known here held field ≡ held }
{}
