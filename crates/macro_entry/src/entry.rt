//! The entry of a macro.
ghost use Rattle.std.specs.Prelude.{◌≡◌, ◌++◌, map, IfOk, OnOk};
ghost use Rattle.kept_values.specs.Keys.{key_tree};
ghost use Rattle.asking_core.specs.Places.{pairs_of};
ghost use Rattle.call_knowledge.specs.Values.{known_tree};
ghost use Rattle.macro_binding.specs.Bindings.{binding_of};
ghost use Rattle.macro_library.specs.Contents.{content_of};
ghost use Rattle.call_knowledge.specs.Tellings.{answers_of};
ghost use Rattle.macro_entry.specs.Entries as entries;

use crate::showing::{all_shown, listed};
use crate::systems::{known_systems, systems_of};
use asking_core::Noted;
use call_knowledge::Knowledge;
use call_knowledge::call_sites::{Known, MacroCall};
use hl_base::{Key, OutOfMemory};
use macro_binding::{Binding, bind};
use macro_library::Def;
use std::alloc::Global;
use trace_values::Settings;

/// Adds a key, if it is asked for.
fn add_key(keys: &mut Vec<Key>, is_asked: bool, key: Key) -> Result<(), OutOfMemory>
    ensures { OnOk result (map key_tree keys.new.items ≡ map key_tree keys.old.items ++ entries.key_if is_asked key) }
{
    if is_asked {
        keys.push(key)?;
    }
    Ok(())
}

/// The keys that a macro asks at its entry: how many calls were counted for `&SYSNDX`, the section for `&SYSECT`, how deep calls
/// are nested for `&SYSNEST`, and SYSPARM for `&SYSPARM`.
pub fn entry_keys(alloc: Global, definition: &Def) -> Result<Vec<Key>, OutOfMemory>
    ensures { IfOk result (λ keys. map key_tree keys.items ≡ entries.entry_keys (content_of definition.now)) }
{
    let named = known_systems(definition);
    let mut keys = Vec::new(alloc);
    add_key(&mut keys, named.sysndx, Key::Counter)?;
    add_key(&mut keys, named.sysect, Key::Sect)?;
    add_key(&mut keys, named.sysnest, Key::Nest)?;
    add_key(&mut keys, named.sysparm, Key::Parm)?;
    Ok(keys)
}

/// What the first statement of a call shows whose operands are bound so, by the answers to the keys of its entry.
#[tactic(auto, using(crate::proofs::SystemLaws::variables_said))]
fn shown_at_entry(
    alloc: Global,
    call: &MacroCall,
    answers: &[Noted<Key, Known>],
    binding: &Binding,
) -> Result<Settings, OutOfMemory>
    requires { binding.now ≡ binding_of (entries.parameters_in (content_of call.now.definition.definition.value)) call.now.name_entry call.now.operands }
    ensures { IfOk result (λ settings. settings ≡ entries.shown_at_entry (content_of call.now.definition.definition.value) (answers_of answers.now) binding.now) }
{
    let definition = &call.definition.definition;
    let prototype = definition.prototype();
    let named = definition.variables();
    let systems = systems_of(alloc, named, prototype.operation(), answers)?;
    let texts = listed(
        alloc,
        named.syslist,
        prototype,
        &call.name_entry,
        &call.operands,
    )?;
    all_shown(alloc, binding, systems.as_slice(), texts.as_slice())
}

/// What a macro knows before its first statement, by the answers to the keys of its entry. `OutOfMemory` also where it has more
/// operands than a `u32` counts.
#[tactic(auto, unfolding(crate::specs::Entries::bound_at_entry))]
pub fn bound_at_entry(
    alloc: Global,
    call: &MacroCall,
    answers: &[Noted<Key, Known>],
) -> Result<Knowledge, OutOfMemory>
    ensures { IfOk result (λ known. known ≡ entries.bound_at_entry (content_of call.now.definition.definition.value) call.now.name_entry
        call.now.operands (pairs_of key_tree known_tree answers.now)) }
{
    let definition = &call.definition.definition;
    let prototype = definition.prototype();
    let named = known_systems(definition);
    let systems = systems_of(alloc, named, prototype.operation(), answers)?;
    let (binding, _notes) = bind(alloc, prototype, call.name_entry.as_str(), &call.operands)?;
    let shown = shown_at_entry(alloc, call, answers, &binding)?;
    Knowledge::in_macro(alloc, systems, binding, shown)
}
