//! The lines that say what the assemblies came to.
ghost use Rattle.std.specs.Prelude.{◌≡◌, string_bytes, IfOk};
ghost use Rattle.std.specs.Fmt.{signed_decimal};
ghost use Rattle.bulk_script.specs.Lines as rules;

use crate::texts::EDITS;
use hl_base::OutOfMemory;
use std::alloc::Global;

/// What the assemblies of the program come to: the points, symbols and notes of the first one, the total that its members made, and the
/// total behind the edits.
#[derive(Clone, Copy, Debug, PartialEq, Eq)]
pub struct Outcome {
    pub points: u32,
    pub symbols: u32,
    pub diagnostics: u32,
    pub total: i32,
    pub total_behind: i32,
}

/// A number in decimal, with a minus sign below 0.
fn signed(alloc: Global, number: i32) -> Result<String, OutOfMemory>
    ensures { IfOk result (λ digits. string_bytes digits ≡ signed_decimal number) }
{
    let digits = format!(in alloc; "{number}")?;
    Ok(digits)
}

/// The six lines, each ended by a line feed.
#[tactic(auto, unfolding(crate::specs::Lines::lines_of))]
pub fn lines_of(alloc: Global, outcome: Outcome) -> Result<String, OutOfMemory>
    ensures { IfOk result (λ lines. string_bytes lines ≡ rules.lines_of outcome) }
{
    let Outcome {
        points,
        symbols,
        diagnostics,
        total,
        total_behind,
    } = outcome;
    let total = signed(alloc, total)?;
    let behind = signed(alloc, total_behind)?;
    Ok(format!(in alloc;
        "points {points}\nsymbols {symbols}\ndiagnostics {diagnostics}\ntotal {total}\nedits {EDITS}\ntotal after edits {behind}\n"
    )?)
}
