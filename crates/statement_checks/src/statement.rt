//! The check of one statement.
ghost use Rattle.std.specs.Prelude.{◌≡◌, ◌++◌, map, OnOk};
ghost use Rattle.std.specs.Str.{chars};
ghost use Rattle.constant_operands.specs.Views.{operand_of};
ghost use Rattle.expression_notes.specs.Repeating.{once_behind};
ghost use Rattle.literal_places.specs.Shown.{literals_of};
ghost use Rattle.operand_checks.specs.Machine.{said_of_machine};
ghost use Rattle.operand_checks.specs.Settings.{setting_of};
ghost use Rattle.operand_list.specs.Split.{operands_of};
ghost use Rattle.ordinary_symbols.specs.Shown.{table_of};
ghost use Rattle.ordinary_symbols.specs.Table.{known};
ghost use Rattle.section_layout.specs.Views.{statement_of};
ghost use Rattle.section_layout.specs.SectionStepsViews.{left_of};
ghost use Rattle.using_statements.specs.Behind.{behind_drop, behind_using};
ghost use Rattle.using_statements.specs.Said.{said_of_drop, said_of_using};
ghost use Rattle.statement_checks.specs.Places.{places_in};
ghost use Rattle.statement_checks.specs.Statements as spec;

use crate::checks::{Check, check_of_line};
use crate::places::places_in;
use constant_operands::ConstantOperand;
use hl_base::{Line, OutOfMemory};
use instruction_table::Format;
use literal_places::{LiteralUse, Literals};
use note_rows::Row;
use operand_checks::{Setting, address_notes, machine_notes};
use ordinary_symbols::Symbols;
use plain_fields::split_field;
use section_layout::StatementLayout;
use section_layout::section_steps::Left;
use std::alloc::Global;
use using_ranges::Ranges;
use using_statements::{push_drop, push_using};

/// Says what there is to say of a machine instruction with an operand field and literals.
fn push_machine(
    alloc: Global,
    setting: &Setting<'_>,
    literals: &Literals,
    format: Format,
    uses: &[Option<LiteralUse>],
    field: &str,
    rows: &mut Vec<Row>,
) -> Result<(), OutOfMemory>
    ensures { OnOk result (rows.new.items ≡ rows.old.items ++ once_behind rows.old.items
        (said_of_machine (setting_of setting.now) format (places_in (literals_of literals.now) uses.now) (operands_of (chars field.now)))) }
{
    let places = places_in(alloc, literals, uses)?;
    let operands = split_field(alloc, field)?;
    machine_notes(
        alloc,
        setting,
        format,
        places.as_slice(),
        operands.as_slice(),
        rows,
    )
}

/// Says what there is to say of the addresses in some constants, in order.
fn push_constants(
    setting: &Setting<'_>,
    operands: &[ConstantOperand],
    rows: &mut Vec<Row>,
) -> Result<(), OutOfMemory>
    ensures { OnOk result (rows.new.items ≡ rows.old.items ++ once_behind rows.old.items
        (spec.said_of_constants (setting_of setting.now) (map operand_of operands.now))) }
{
    for operand in operands {
        address_notes(setting, operand, rows)?;
    }
    Ok(())
}

/// The same of the constants of DC or DS, if some were judged.
fn push_left(setting: &Setting<'_>, left: &Left, rows: &mut Vec<Row>) -> Result<(), OutOfMemory>
    ensures { OnOk result (rows.new.items ≡ rows.old.items ++ once_behind rows.old.items
        (spec.said_of_left (setting_of setting.now) (left_of left.now))) }
{
    match left {
        Left::Operands(operands) => push_constants(setting, operands.as_slice(), rows),
        Left::Nothing | Left::Names(_) | Left::Expression(_) | Left::Equated(_, _) => Ok(()),
    }
}

/// Checks a machine instruction.
fn check_machine(
    alloc: Global,
    symbols: &Symbols,
    literals: &Literals,
    ranges: &Ranges,
    format: Format,
    field: &str,
    statement: &mut StatementLayout,
) -> Result<(), OutOfMemory>
    ensures { OnOk result (statement_of statement.new ≡ spec.with_rows
        (spec.said_by (Check.Machine format) (spec.setting_at (known (table_of symbols.now)) ranges.now (statement_of statement.old))
        (literals_of literals.now) (statement_of statement.old) (chars field.now)) (statement_of statement.old)) }
{
    let setting = Setting {
        symbols,
        ranges,
        here: statement.here,
    };
    push_machine(
        alloc,
        &setting,
        literals,
        format,
        statement.uses.as_slice(),
        field,
        &mut statement.rows,
    )
}

/// Checks DC or DS.
fn check_constants(
    symbols: &Symbols,
    ranges: &Ranges,
    statement: &mut StatementLayout,
) -> Result<(), OutOfMemory>
    ensures { OnOk result (statement_of statement.new ≡ spec.with_rows
        (spec.said_of_left (spec.setting_at (known (table_of symbols.now)) ranges.now (statement_of statement.old))
        (statement_of statement.old).left) (statement_of statement.old)) }
{
    let setting = Setting {
        symbols,
        ranges,
        here: statement.here,
    };
    push_left(&setting, &statement.left, &mut statement.rows)
}

/// Checks a USING, and begins its ranges.
fn check_using(
    alloc: Global,
    symbols: &Symbols,
    ranges: &mut Ranges,
    field: &str,
    statement: &mut StatementLayout,
) -> Result<(), OutOfMemory>
    ensures checked { OnOk result (statement_of statement.new ≡ spec.with_rows
        (said_of_using (known (table_of symbols.now)) statement.old.here (chars field.now)) (statement_of statement.old)) }
    ensures behind { OnOk result (ranges.new
        ≡ behind_using (known (table_of symbols.now)) statement.old.here ranges.old (chars field.now)) }
{
    push_using(
        alloc,
        symbols,
        statement.here,
        field,
        ranges,
        &mut statement.rows,
    )
}

/// Checks a DROP, and ends the ranges of its registers.
fn check_drop(
    alloc: Global,
    symbols: &Symbols,
    ranges: &mut Ranges,
    field: &str,
    statement: &mut StatementLayout,
) -> Result<(), OutOfMemory>
    ensures checked { OnOk result (statement_of statement.new ≡ spec.with_rows
        (said_of_drop (known (table_of symbols.now)) statement.old.here ranges.old (chars field.now)) (statement_of statement.old)) }
    ensures behind { OnOk result (ranges.new
        ≡ behind_drop (known (table_of symbols.now)) statement.old.here ranges.old (chars field.now)) }
{
    push_drop(
        alloc,
        symbols,
        statement.here,
        field,
        ranges,
        &mut statement.rows,
    )
}

/// Checks a statement of a line by the ranges before it, which are those behind it then. An `Err` leaves only some of it said.
#[tactic(auto, unfolding(crate::specs::Statements::said, crate::specs::Statements::behind, crate::specs::Statements::checked))]
pub(crate) fn check_statement(
    alloc: Global,
    symbols: &Symbols,
    literals: &Literals,
    ranges: &mut Ranges,
    line: &Line,
    statement: &mut StatementLayout,
) -> Result<(), OutOfMemory>
    ensures checked { OnOk result (statement_of statement.new
        ≡ spec.checked (known (table_of symbols.now)) (literals_of literals.now) ranges.old line.now (statement_of statement.old)) }
    ensures behind { OnOk result (ranges.new
        ≡ spec.behind (known (table_of symbols.now)) ranges.old line.now (statement_of statement.old)) }
{
    let field = line.operands.as_str();
    match check_of_line(line) {
        Check::Machine(format) => {
            check_machine(alloc, symbols, literals, ranges, format, field, statement)
        }
        Check::Constants => check_constants(symbols, ranges, statement),
        Check::Using => check_using(alloc, symbols, ranges, field, statement),
        Check::Drop => check_drop(alloc, symbols, ranges, field, statement),
        Check::Nothing => Ok(()),
    }
}
