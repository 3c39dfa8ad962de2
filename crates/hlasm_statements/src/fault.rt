//! Faults of the columns of a statement.
ghost use Rattle.std.specs.Prelude.{◌≡◌};
ghost use Rattle.hlasm_statements.specs.Faults.{faults_met};

use hl_base::Severity;
use std::marker::Model;

/// What is wrong with the columns of a statement.
#[derive(Clone, Copy, Debug, PartialEq, Eq)]
pub enum ColumnFault {
    /// Columns 1 to 15 of a continuation line are not blank.
    MarginText,
    /// There are more continuation lines than are read.
    SurplusLines,
    /// The text ends where a continuation line is expected.
    MissingLine,
}

impl ColumnFault {
    ghost use Rattle.hlasm_statements.specs.Faults.{code_of, severity_of};

    /// The number of its code behind the `H`.
    pub fn code(self) -> u16
        ensures { result ≡ code_of self }
    {
        match self {
            ColumnFault::MarginText => 1,
            ColumnFault::SurplusLines => 2,
            ColumnFault::MissingLine => 5,
        }
    }

    /// How much it weighs.
    pub fn severity(self) -> Severity
        ensures { result ≡ severity_of self }
    {
        match self {
            ColumnFault::MarginText | ColumnFault::SurplusLines => Severity::Error,
            ColumnFault::MissingLine => Severity::Warning,
        }
    }
}

/// Faults of one statement, each at most once, in the order of their codes. Contracts see the list.
#[derive(Drop)]
pub struct Faults {
    has_margin_text: bool,
    has_surplus: bool,
    is_missing: bool,
}

impl Model for Faults {
    ghost use Rattle.std.specs.Prelude.{List};
    ghost use Rattle.hlasm_statements.specs.declared.fault.ColumnFault.{ColumnFault};
    ghost use Rattle.hlasm_statements.specs.Faults.{faults_met};

    ghost Value = { List ColumnFault };

    ghost view = { λ s. faults_met s.has_margin_text s.has_surplus s.is_missing };
}

impl Faults {
    /// The faults that were met.
    pub fn of(has_margin_text: bool, has_surplus: bool, is_missing: bool) -> Faults
        ensures { result ≡ faults_met has_margin_text has_surplus is_missing }
    {
        Faults {
            has_margin_text,
            has_surplus,
            is_missing,
        }
    }

    /// The faults in order.
    pub fn as_slice(&self) -> &[ColumnFault]
        ensures { result.now ≡ self.now }
    {
        match (self.has_margin_text, self.has_surplus, self.is_missing) {
            (false, false, false) => &[],
            (false, false, true) => &[ColumnFault::MissingLine],
            (false, true, false) => &[ColumnFault::SurplusLines],
            (false, true, true) => &[ColumnFault::SurplusLines, ColumnFault::MissingLine],
            (true, false, false) => &[ColumnFault::MarginText],
            (true, false, true) => &[ColumnFault::MarginText, ColumnFault::MissingLine],
            (true, true, false) => &[ColumnFault::MarginText, ColumnFault::SurplusLines],
            (true, true, true) => &[
                ColumnFault::MarginText,
                ColumnFault::SurplusLines,
                ColumnFault::MissingLine,
            ],
        }
    }
}
