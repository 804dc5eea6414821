//! The loop over rows.

use crate::words::split;
use anyhow::Result;
use std::alloc::Global;

/// What does what rows say.
pub trait Rows {
    /// Does what the words of one row say, of which there is one at least, and returns what the row
    /// came to.
    fn line(&mut self, alloc: Global, words: &[&str]) -> Result<String>;
}

/// Prints a line for each row: what it came to, or the row as it is where it has no words. An error
/// of a row, whose words aren't understood, ends the rows and names it.
pub fn print_rows<D: Rows>(
    rt: &impl Print,
    alloc: Global,
    doing: &mut D,
    rows: &[&str],
) -> Result<()> {
    for row in rows {
        let words = split(alloc, row)?;
        let text = match words.as_slice() {
            [] => row.to_string(alloc)?,
            words => match doing.line(alloc, words) {
                Ok(text) => text,
                Err(error) => return Err(error.context(*row)),
            },
        };
        println!(rt; "{text}")?;
    }
    Ok(())
}
