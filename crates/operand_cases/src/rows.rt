//! What is said of USING and DROP, in words.
use hl_base::{Frames, OutOfMemory};
use note_rows::{Row, note};
use std::alloc::Global;

/// Adds the code of a row, and the symbol of which it says that it is not defined, or is so already, or the register that is not
/// in use.
pub fn push_row(alloc: Global, row: &Row, words: &mut String) -> Result<(), OutOfMemory> {
    let code = note(alloc, row, Frames::new(alloc))?.code;
    let word = format!(in alloc; " {code}")?;
    words.push_str(word.as_str())?;
    match row {
        Row::UndefinedSymbol(name) | Row::DefinedTwice(name) => {
            words.push_str(" ")?;
            words.push_str(name.text())?;
        }
        Row::UnusedRegister(register) => {
            let word = format!(in alloc; " {register}")?;
            words.push_str(word.as_str())?;
        }
        _ => {}
    }
    Ok(())
}

/// The code of each row behind a semicolon, with its symbol.
pub fn push_rows(alloc: Global, rows: &[Row], words: &mut String) -> Result<(), OutOfMemory> {
    words.push_str(";")?;
    for row in rows {
        push_row(alloc, row, words)?;
    }
    Ok(())
}
