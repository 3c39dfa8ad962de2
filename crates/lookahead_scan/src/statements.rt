//! The statements of a list as a look ahead meets them.
ghost use Rattle.std.specs.Prelude.{◌≡◌, [], ◌∷◌, ◌++◌, IfOk, OnOk};
ghost use Rattle.std.specs.Str.{chars};
ghost use Rattle.hlasm_statements.specs.Statements.{statements_of};
ghost use Rattle.lookahead_scan.specs.Statements as statements;

use crate::sight::{Role, Sight, role_of, sight_of};
use hl_base::OutOfMemory;
use hlasm_statements::{Statement, Statements, read_statements};
use std::alloc::Global;
use std::collections::VecDeque;

/// How many definitions are open behind a statement of this role.
fn open_behind(opened: usize, role: Role) -> Result<usize, OutOfMemory>
    ensures { IfOk result (λ n. n ≡ statements.open_behind opened role) }
{
    match role {
        Role::Opens => Ok(opened.checked_add(1).ok_or(OutOfMemory)?),
        Role::Closes => Ok(opened.saturating_sub(1)),
        Role::Copies | Role::Ends | Role::Stands => Ok(opened),
    }
}

/// What a statement is within so many definitions.
fn sight_within(
    alloc: Global,
    opened: usize,
    role: Role,
    statement: &Statement,
) -> Result<Sight, OutOfMemory>
    ensures { IfOk result (λ seen. seen ≡ statements.sight_within opened role statement.now) }
{
    if opened > 0 {
        return Ok(Sight::Passed);
    }
    sight_of(alloc, role, statement)
}

/// Adds what a statement is behind others.
fn push(sights: &mut VecDeque<Sight>, sight: Sight) -> Result<(), OutOfMemory>
    ensures { OnOk result (sights.new.items ≡ sights.old.items ++ sight ∷ []) }
{
    sights.push_back(sight)?;
    Ok(())
}

/// What the statements of a list are, in order.
pub(crate) fn sights_of(alloc: Global, list: &Statements) -> Result<VecDeque<Sight>, OutOfMemory>
    ensures { IfOk result (λ sights. sights.items ≡ statements.sights list.now) }
{
    let mut sights = VecDeque::new(alloc);
    let mut opened = 0;
    let mut left = list.as_slice();
    while let [statement, rest @ ..] = left {
        let role = role_of(&statement.op);
        push(&mut sights, sight_within(alloc, opened, role, statement)?)?;
        opened = open_behind(opened, role)?;
        left = rest;
    }
    Ok(sights)
}

/// What the statements of a text are, in order.
pub(crate) fn sights_in(alloc: Global, text: &str) -> Result<VecDeque<Sight>, OutOfMemory>
    ensures { IfOk result (λ sights. sights.items ≡ statements.sights (statements_of (chars text.now))) }
{
    let list = read_statements(alloc, text)?;
    sights_of(alloc, &list)
}
