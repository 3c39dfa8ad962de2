//! Whole tables: from a text to a report, and from standard input to standard output.
use crate::cases::{CaseTable, Outcome, compared};
use hl_base::OutOfMemory;
use std::alloc::{AllocError, Global};
use std::env;
use std::io::{self, ErrorKind};
use std::process::ExitCode;

/// What is to be said of a table, and how many of its cases came to what.
#[derive(Drop)]
struct Report {
    said: String,
    passed: u64,
    failed: u64,
}

impl Report {
    fn new(alloc: Global) -> Report {
        Report {
            said: String::new(alloc),
            passed: 0,
            failed: 0,
        }
    }

    /// Adds what the line of a number comes to.
    fn add(&mut self, alloc: Global, number: usize, outcome: Outcome) -> Result<(), AllocError> {
        match outcome {
            Outcome::NoCase => {}
            Outcome::Passed => self.passed = self.passed.saturating_add(1),
            Outcome::Failed(said) => {
                self.failed = self.failed.saturating_add(1);
                let line = format!(in alloc; "line {number}: {said}\n")?;
                self.said.push_str(line.as_str())?;
            }
        }
        Ok(())
    }

    /// Whether some case passed and none failed.
    fn is_good(&self) -> bool {
        self.passed > 0 && self.failed == 0
    }
}

/// Compares the cases of a text, a line each.
fn compare_lines<T: CaseTable>(
    alloc: Global,
    table: &T,
    text: &str,
) -> Result<Report, OutOfMemory> {
    let mut report = Report::new(alloc);
    let mut number = 0usize;
    for line in text.split('\n') {
        number = number.saturating_add(1);
        report.add(alloc, number, compared(alloc, table, line)?)?;
    }
    Ok(report)
}

/// Compares the cases of standard input, and tells whether one passed and none failed.
fn compare_input<T: CaseTable>(rt: &HostRuntime, table: &T) -> io::Result<bool> {
    let text = io::read_to_string(rt.alloc(), rt.reader())?;
    match compare_lines(rt.alloc(), table, text.as_str()) {
        Ok(report) => {
            print!(rt;
                "{}{} passed, {} failed\n",
                report.said, report.passed, report.failed
            )?;
            Ok(report.is_good())
        }
        Err(OutOfMemory) => Err(io::Error::from(ErrorKind::OutOfMemory)),
    }
}

/// The table that the one word after the program's name says.
fn table<T: CaseTable>(rt: &HostRuntime) -> io::Result<Option<T>> {
    let mut words = env::args(rt)?;
    let _name = words.next();
    match words.next() {
        Some(word) => Ok(T::named(word.as_str())),
        None => Ok(None),
    }
}

/// The same of the table that is named.
fn compare_named<T: CaseTable + Drop>(rt: &HostRuntime) -> io::Result<bool> {
    match table::<T>(rt)? {
        Some(table) => compare_input(rt, &table),
        None => {
            println!(rt; "the word after the name is no table")?;
            Ok(false)
        }
    }
}

/// Compares the table that the word after the program's name says with the cases of standard input. Answers 0 where a case
/// passed and none failed, else 1.
pub fn compare_tables<T: CaseTable + Drop>(rt: &HostRuntime) -> ExitCode {
    match compare_named::<T>(rt) {
        Ok(true) => ExitCode::from(0),
        _ => ExitCode::from(1),
    }
}
