//! The tables by their words.
use crate::settings::Words;
use crate::{checks, readings, usings};
use case_lines::CaseTable;
use hl_base::OutOfMemory;
use std::alloc::Global;

/// What a table's cases ask.
#[derive(Clone, Copy, Drop)]
pub enum Table {
    /// What is read of an operand of a machine instruction.
    MachineOperands,
    /// What is said of the operands of a machine instruction.
    OperandChecks,
    /// What is said of USING and DROP, and what is covered behind them.
    UsingStatements,
}

impl CaseTable for Table {
    fn named(word: &str) -> Option<Table> {
        match word {
            "machine_operands" => Some(Table::MachineOperands),
            "operand_checks" => Some(Table::OperandChecks),
            "using_statements" => Some(Table::UsingStatements),
            _ => None,
        }
    }

    fn answer(&self, alloc: Global, fields: &[String]) -> Result<String, OutOfMemory> {
        match (self, fields) {
            (Table::MachineOperands, [op, place, operand]) => {
                readings::read(alloc, op.as_str(), place.as_str(), operand.as_str())
            }
            (Table::OperandChecks, [symbols, ranges, places, statement]) => {
                let words = Words {
                    symbols: symbols.as_str(),
                    ranges: ranges.as_str(),
                    places: places.as_str(),
                };
                checks::said(alloc, &words, "", statement.as_str())
            }
            (Table::OperandChecks, [symbols, ranges, places, given, statement]) => {
                let words = Words {
                    symbols: symbols.as_str(),
                    ranges: ranges.as_str(),
                    places: places.as_str(),
                };
                checks::said(alloc, &words, given.as_str(), statement.as_str())
            }
            (Table::UsingStatements, [symbols, statements, addresses]) => usings::covered(
                alloc,
                symbols.as_str(),
                statements.as_str(),
                addresses.as_str(),
            ),
            _ => Ok(String::from_str(alloc, "of other fields than the table's")?),
        }
    }
}
