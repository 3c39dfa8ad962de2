//! The occurrences of the names of a statement.
ghost use Rattle.std.specs.Prelude.{◌≡◌, ◌<◌, [], length, OnOk};
ghost use Rattle.std.specs.List.{All, fold};
ghost use Rattle.hlasm_statements.specs.Statements.{places};
ghost use Rattle.standing_occurrences.specs.Standing.{with_first};
ghost use Rattle.statement_occurrences.specs.Named as named;
ghost use Rattle.statement_occurrences.specs.Views.{circumstances_of};

use crate::naming::{Naming, naming_of};
use crate::surroundings::Surroundings;
use hl_base::{OutOfMemory, PathId};
use hlasm_statements::Statement;
use standing_occurrences::Standing;
use statement_names::{WrittenName, span_of};
use trace_values::Occurrence;

/// A name of a statement of a path, as an occurrence of what it names.
pub fn occurrence_of(
    path: PathId,
    statement: &Statement,
    name: &WrittenName,
    naming: Naming,
) -> Occurrence
    requires { name.now.at < length (places statement.now name.now.field) }
    ensures { result ≡ named.occurrence_of path statement.now name.now naming }
{
    let place = span_of(statement, name);
    Occurrence {
        path,
        line: place.line,
        from: place.from,
        to: place.to,
        entity: naming.entity,
        defines: naming.defines,
        role: naming.role,
    }
}

/// Adds a name behind these of a statement of a path, if it is an occurrence.
fn push_occurrence(
    s: &Surroundings<'_>,
    path: PathId,
    statement: &Statement,
    earlier: &[WrittenName],
    name: &WrittenName,
    kept: &mut Standing,
) -> Result<(), OutOfMemory>
    requires { name.now.at < length (places statement.now name.now.field) }
    ensures { OnOk result (kept.new ≡ fold with_first kept.old (named.of_name (circumstances_of s.now) path statement.now earlier.now name.now)) }
{
    match naming_of(s, earlier, name) {
        Some(naming) => kept.push(occurrence_of(path, statement, name, naming)),
        None => Ok(()),
    }
}

/// Adds the occurrences of the names of a statement of a path, from left to right. What an `Err` leaves is of no use.
pub fn push_occurrences(
    s: &Surroundings<'_>,
    path: PathId,
    statement: &Statement,
    names: &[WrittenName],
    kept: &mut Standing,
) -> Result<(), OutOfMemory>
    requires { All (λ name. name.at < length (places statement.now name.field)) names.now }
    ensures { OnOk result (kept.new ≡ fold with_first kept.old (named.of_names (circumstances_of s.now) path statement.now [] names.now)) }
{
    for (at, name) in names.iter().enumerate() {
        push_occurrence(s, path, statement, &names[..at], name, kept)?;
    }
    Ok(())
}
