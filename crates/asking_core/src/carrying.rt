//! What a nested call read, as its caller has it.
ghost use Rattle.std.specs.Prelude.{◌≡◌, ℕ, ◌+◌, ◌<◌, ◌≤◌, [], IfOk, OnOk, length};
ghost use Rattle.kept_values.specs.Trees.{Tree, Pair, look_up};
ghost use Rattle.asking_core.specs.Footprints.{carried, merged, unless_there};
ghost use Rattle.asking_core.specs.Places.{pairs_of};

use crate::{AskMachine, Footprint, Noted};
use hl_base::OutOfMemory;
use kept_values::Kept;
use std::alloc::Global;

/// Notes one pair that a nested call read, unless its caller had put the key.
fn carry_one<M: AskMachine>(
    machine: &M,
    alloc: Global,
    carried: &mut Footprint<M::Key, M::Value>,
    noted: &Noted<M::Key, M::Value>,
    puts: &Footprint<M::Key, M::Value>,
    calls: u32,
) -> Result<(), OutOfMemory>
    ensures { OnOk result (pairs_of M.Key.code M.Value.code carried.new ≡ merged (pairs_of M.Key.code M.Value.code carried.old) (unless_there (look_up (pairs_of M.Key.code M.Value.code puts.now) (M.Key.code noted.now.key)) (record { key = M.Key.code noted.now.key; value = M.rebased (M.Key.code noted.now.key) (M.Value.code noted.now.value) calls }) [])) }
{
    if puts.is_noted(&noted.key) {
        return Ok(());
    }
    let value = machine.rebase(alloc, &noted.key, &noted.value, calls)?;
    carried.note_answer(noted.key.copy(alloc)?, value)
}

/// What a nested call read, as of the start of its caller, which had put `puts` and counted `calls` calls, the nested
/// one included. Keys that the caller had put are left out.
pub fn carry<M: AskMachine>(
    machine: &M,
    alloc: Global,
    child: &Footprint<M::Key, M::Value>,
    puts: &Footprint<M::Key, M::Value>,
    calls: u32,
) -> Result<Footprint<M::Key, M::Value>, OutOfMemory>
    ensures { IfOk result (λ f. pairs_of M.Key.code M.Value.code f ≡ merged [] (carried M.rebased (pairs_of M.Key.code M.Value.code puts.now) calls (pairs_of M.Key.code M.Value.code child.now))) }
{
    let mut carried = Footprint::new(alloc);
    for noted in child.as_slice() {
        carry_one(machine, alloc, &mut carried, noted, puts, calls)?;
    }
    Ok(carried)
}
