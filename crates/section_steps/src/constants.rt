//! DC and DS.
ghost use Rattle.std.specs.Prelude.{◌≡◌, ◌++◌, ◌∷◌, ◌<◌, map, false, IfOk, OnOk};
ghost use Rattle.std.specs.List.{list_all};
ghost use Rattle.constant_operands.specs.Views.{operand_of};
ghost use Rattle.ordinary_symbols.specs.Shown as symbol_views;
ghost use Rattle.ordinary_symbols.specs.Table.{known};
ghost use Rattle.section_table.specs.Shown as section_views;
ghost use Rattle.section_table.specs.Tables.{here};
ghost use Rattle.section_steps.specs.Constants as spec;
ghost use Rattle.section_steps.specs.Legible as measures;
ghost use Rattle.section_steps.specs.Views.{laid_of, state_of};

use crate::gathering::{is_read, measured, push_legible, say_fits};
use crate::labels::define_label;
use crate::mark::mark;
use crate::places::{bytes_between, value_at};
use crate::{Laid, Left, State};
use constant_operands::{ConstantOperand, Extent};
use hl_base::{Attr, Name, OutOfMemory};
use note_rows::Row;
use ordinary_symbols::Symbols;
use section_table::{Place, SectionTable};
use std::alloc::Global;
use std::collections::VecDeque;
use trace_values::Reloc;

/// Where room is taken, if it is, and whether what was asked for fits.
#[derive(Clone, Copy)]
struct Room {
    place: Option<Place>,
    fits: bool,
}

/// Takes room in the current section, where some is asked for.
fn take_room(sections: &mut SectionTable, boundary: u32, extent: Option<Extent>) -> Room
    requires { 0 < boundary }
    ensures place { result.place ≡ spec.place_by boundary extent (section_views.table_of sections.old) }
    ensures fits { result.fits ≡ spec.fits_by boundary extent (section_views.table_of sections.old) }
    ensures taken { section_views.table_of sections.new ≡ spec.taken_by boundary extent (section_views.table_of sections.old) }
{
    match extent {
        Some(extent) => {
            let place = sections.take(boundary, extent.bytes);
            Room {
                fits: place.is_some(),
                place,
            }
        }
        None => Room {
            place: None,
            fits: true,
        },
    }
}

/// An operand that was placed, if it was: what a label on it means, whether it was said that the section gets too long, and whether
/// the operand can be read.
#[derive(Clone, Copy)]
struct Placed {
    place: Option<Place>,
    attr: Attr,
    said: bool,
    legible: bool,
}

/// Places an operand. That the section gets too long is said unless it was said before.
#[tactic(auto, unfolding(crate::specs::Constants::operand_place, crate::specs::Constants::operand_taken, crate::specs::Constants::operand_fits, crate::specs::Constants::operand_said, crate::specs::Constants::is_said, crate::specs::Legible::is_legible))]
fn place_operand(
    alloc: Global,
    symbols: &Symbols,
    here: Option<Reloc>,
    sections: &mut SectionTable,
    operand: &ConstantOperand,
    before: bool,
    rows: &mut Vec<Row>,
) -> Result<Placed, OutOfMemory>
    ensures place { IfOk result (λ placed. placed.place
        ≡ spec.operand_place (known (symbol_views.table_of symbols.now)) here (operand_of operand.now) (section_views.table_of sections.old)) }
    ensures attr { IfOk result (λ placed. placed.attr ≡ (measures.measured (known (symbol_views.table_of symbols.now)) here
        (operand_of operand.now)).attr) }
    ensures is_said { IfOk result (λ placed. placed.said
        ≡ spec.is_said before (known (symbol_views.table_of symbols.now)) here (operand_of operand.now) (section_views.table_of sections.old)) }
    ensures legible { IfOk result (λ placed. placed.legible
        ≡ measures.is_legible (known (symbol_views.table_of symbols.now)) here (operand_of operand.now)) }
    ensures taken { OnOk result (section_views.table_of sections.new
        ≡ spec.operand_taken (known (symbol_views.table_of symbols.now)) here (operand_of operand.now) (section_views.table_of sections.old)) }
    ensures said { OnOk result (rows.new.items
        ≡ rows.old.items ++ spec.operand_said before (known (symbol_views.table_of symbols.now)) here (operand_of operand.now)
        (section_views.table_of sections.old)) }
{
    let mut measure = measured(alloc, symbols, here, operand)?;
    let room = take_room(sections, operand.boundary(), measure.extent);
    let legible = is_read(measure.said.as_slice());
    rows.append(&mut measure.said)?;
    say_fits(rows, before || room.fits)?;
    Ok(Placed {
        place: room.place,
        attr: measure.attr,
        said: before || !room.fits,
        legible,
    })
}

/// Places each operand, in order, and says whether all of them can be read.
fn place_operands(
    alloc: Global,
    symbols: &Symbols,
    here: Option<Reloc>,
    sections: &mut SectionTable,
    mut operands: &[ConstantOperand],
    mut said: bool,
    rows: &mut Vec<Row>,
) -> Result<bool, OutOfMemory>
    ensures taken { OnOk result (section_views.table_of sections.new
        ≡ spec.all_taken (known (symbol_views.table_of symbols.now)) here (map operand_of operands.entry.now)
        (section_views.table_of sections.old)) }
    ensures said { OnOk result (rows.new.items
        ≡ rows.old.items ++ spec.said_of_all said (known (symbol_views.table_of symbols.now)) here (map operand_of operands.entry.now)
        (section_views.table_of sections.old)) }
    ensures legible { IfOk result (λ all. all
        ≡ list_all (measures.is_legible (known (symbol_views.table_of symbols.now)) here) (map operand_of operands.entry.now)) }
{
    let mut legible = true;
    while let [operand, rest @ ..] = operands {
        let placed = place_operand(alloc, symbols, here, sections, operand, said, rows)?;
        said = placed.said;
        legible = legible && placed.legible;
        operands = rest;
    }
    Ok(legible)
}

/// The operands that can be read.
fn sift(
    alloc: Global,
    symbols: &Symbols,
    here: Option<Reloc>,
    operands: Vec<ConstantOperand>,
) -> Result<Vec<ConstantOperand>, OutOfMemory>
    ensures { IfOk result (λ found. map operand_of found.items
        ≡ spec.all_legible (known (symbol_views.table_of symbols.now)) here (map operand_of operands.items)) }
{
    let mut found = Vec::new(alloc);
    let mut left = VecDeque::from(operands);
    while let Some(operand) = left.pop_front() {
        keep(alloc, symbols, here, operand, &mut found)?;
    }
    Ok(found)
}

/// Keeps an operand behind others, if it can be read.
#[tactic(auto, unfolding(crate::specs::Legible::legible))]
fn keep(
    alloc: Global,
    symbols: &Symbols,
    here: Option<Reloc>,
    operand: ConstantOperand,
    found: &mut Vec<ConstantOperand>,
) -> Result<(), OutOfMemory>
    ensures { OnOk result (map operand_of found.new.items
        ≡ map operand_of found.old.items ++ measures.legible (known (symbol_views.table_of symbols.now)) here (operand_of operand)) }
{
    let measure = measured(alloc, symbols, here, &operand)?;
    push_legible(found, operand, measure.said.as_slice())
}

/// The operands that can be read, where it was found whether all can: most operands can, so none has to be moved.
#[tactic(auto, using(crate::proofs::Legibles::all_are_legible))]
fn legible_operands(
    alloc: Global,
    symbols: &Symbols,
    here: Option<Reloc>,
    operands: Vec<ConstantOperand>,
    all: bool,
) -> Result<Vec<ConstantOperand>, OutOfMemory>
    requires { all ≡ list_all (measures.is_legible (known (symbol_views.table_of symbols.now)) here) (map operand_of operands.items) }
    ensures { IfOk result (λ found. map operand_of found.items
        ≡ spec.all_legible (known (symbol_views.table_of symbols.now)) here (map operand_of operands.items)) }
{
    if all {
        return Ok(operands);
    }
    sift(alloc, symbols, here, operands)
}

/// The value of `*` in a statement with this first operand.
fn here_at(sections: &SectionTable, first: &ConstantOperand) -> Result<Option<Reloc>, OutOfMemory>
    ensures { IfOk result (λ value. value ≡ spec.here_at (operand_of first.now) (section_views.table_of sections.now)) }
{
    match sections.next(first.boundary()) {
        Some(place) => value_at(Some(place)),
        None => value_at(sections.here()),
    }
}

/// DC or DS whose operands were placed: where it stands, what a label on it means, the value of `*` in it, what is said of it, and
/// whether all of its operands can be read.
#[derive(Drop)]
struct Set {
    place: Option<Place>,
    attr: Attr,
    here: Option<Reloc>,
    said: Vec<Row>,
    legible: bool,
}

/// Places the operands of DC or DS.
#[tactic(auto, unfolding(crate::specs::Constants::first_place))]
fn place_all(
    alloc: Global,
    symbols: &Symbols,
    sections: &mut SectionTable,
    first: &ConstantOperand,
    others: &[ConstantOperand],
) -> Result<Set, OutOfMemory>
    ensures place { IfOk result (λ set. set.place ≡ spec.first_place (known (symbol_views.table_of symbols.now)) (operand_of first.now)
        (section_views.table_of sections.old)) }
    ensures attr { IfOk result (λ set. set.attr ≡ (measures.measured (known (symbol_views.table_of symbols.now))
        (spec.here_at (operand_of first.now) (section_views.table_of sections.old)) (operand_of first.now)).attr) }
    ensures here { IfOk result (λ set. set.here ≡ spec.here_at (operand_of first.now) (section_views.table_of sections.old)) }
    ensures said { IfOk result (λ set. set.said.items ≡ spec.said_of_all false (known (symbol_views.table_of symbols.now))
        (spec.here_at (operand_of first.now) (section_views.table_of sections.old))
        (operand_of first.now ∷ map operand_of others.now) (section_views.table_of sections.old)) }
    ensures legible { IfOk result (λ set. set.legible ≡ list_all (measures.is_legible (known (symbol_views.table_of symbols.now))
        (spec.here_at (operand_of first.now) (section_views.table_of sections.old))) (operand_of first.now ∷ map operand_of others.now)) }
    ensures taken { OnOk result (section_views.table_of sections.new ≡ spec.all_taken (known (symbol_views.table_of symbols.now))
        (spec.here_at (operand_of first.now) (section_views.table_of sections.old))
        (operand_of first.now ∷ map operand_of others.now) (section_views.table_of sections.old)) }
{
    let stays = sections.here();
    let here = here_at(sections, first)?;
    let mut said = Vec::new(alloc);
    let placed = place_operand(alloc, symbols, here, sections, first, false, &mut said)?;
    let legible = place_operands(
        alloc,
        symbols,
        here,
        sections,
        others,
        placed.said,
        &mut said,
    )?;
    Ok(Set {
        place: placed.place.or(stays),
        attr: placed.attr,
        here,
        said,
        legible: placed.legible && legible,
    })
}

/// DC or DS whose operands were placed: its label is defined.
#[tactic(auto, unfolding(crate::specs::Constants::set_behind, crate::specs::Constants::set_laid))]
fn define_set(
    alloc: Global,
    state: &mut State,
    set: Set,
    operands: Vec<ConstantOperand>,
    label: Option<Name>,
) -> Result<Laid, OutOfMemory>
    requires { set.legible ≡ list_all (measures.is_legible (known (state_of state.old).symbols) set.here) (map operand_of operands.items) }
    ensures behind { OnOk result (state_of state.new ≡ spec.set_behind set.place set.attr label (state_of state.old)) }
    ensures laid { IfOk result (λ laid. laid_of laid
        ≡ spec.set_laid set.place set.here set.said.items (map operand_of operands.items) label (state_of state.old)) }
{
    let Set {
        place,
        attr,
        here,
        said,
        legible,
    } = set;
    let left = legible_operands(alloc, &state.symbols, here, operands, legible)?;
    let mut said_of_symbols = Vec::new(alloc);
    define_label(
        alloc,
        &mut state.symbols,
        label,
        place,
        attr,
        &mut said_of_symbols,
    )?;
    Ok(Laid {
        place,
        bytes: bytes_between(place, state.sections.here()),
        here,
        uses: Vec::new(alloc),
        said,
        said_of_symbols,
        left: Left::Operands(left),
    })
}

/// DC or DS.
#[tactic(auto, unfolding(crate::specs::Constants::constants_place, crate::specs::Constants::constants_attr, crate::specs::Constants::constants_behind_first, crate::specs::Constants::constants_laid_first))]
pub(crate) fn constants(
    alloc: Global,
    state: &mut State,
    operands: Vec<ConstantOperand>,
    label: Option<Name>,
) -> Result<Laid, OutOfMemory>
    ensures behind { OnOk result (state_of state.new ≡ spec.constants_behind (map operand_of operands.items) label (state_of state.old)) }
    ensures laid { IfOk result (λ laid. laid_of laid ≡ spec.constants_laid (map operand_of operands.items) label (state_of state.old)) }
{
    match operands.as_slice() {
        [first, others @ ..] => {
            let set = place_all(alloc, &state.symbols, &mut state.sections, first, others)?;
            define_set(alloc, state, set, operands, label)
        }
        [] => mark(alloc, state, label, Vec::new(alloc), Left::Nothing),
    }
}
