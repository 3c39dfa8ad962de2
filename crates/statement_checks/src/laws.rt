//! What holds of checked statements. The functions do nothing: their contracts are the laws.
ghost use Rattle.std.specs.Prelude.{◌≡◌, ℕ, List, take, length, slice_get};
ghost use Rattle.hl_base.specs.declared.set.Line.{Line};
ghost use Rattle.ordinary_symbols.specs.Table.{known};
ghost use Rattle.section_layout.specs.Layout.{Layout};
ghost use Rattle.using_statements.specs.Held.{no_ranges};
ghost use Rattle.statement_checks.specs.Programs.{checked, checked_at, ranges_behind};

/// Each statement is checked by the ranges behind all statements before it.
pub fn ranges_are_those_behind()
    ensures { (lines : List Line) (layout : Layout) (number : ℕ) → slice_get (checked lines layout).statements number
        ≡ checked_at (known layout.symbols) layout.literals
        (ranges_behind (known layout.symbols) no_ranges (take number lines) (take number layout.statements))
        (slice_get lines number) (slice_get layout.statements number) }
{}

/// There are as many statements as before.
pub fn each_statement_is_checked()
    ensures { (lines : List Line) (layout : Layout) → length (checked lines layout).statements ≡ length layout.statements }
{}
