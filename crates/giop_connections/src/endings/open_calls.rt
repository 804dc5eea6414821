//! The calls that are open where a session ended, as standard error has them.
use crate::endings::counted::Counted;
use std::fmt;

// So many ids are told at most.
const MOST_TOLD: usize = 8;

/// How many calls are open, and their ids where they are few: `2 calls open: 1, 2`.
#[derive(Clone, Copy)]
pub struct OpenCalls<'a>(pub &'a [u32]);

impl fmt::Display for OpenCalls<'_> {
    fn fmt<W: fmt::Write>(&self, f: &mut fmt::Formatter<W>) -> fmt::Result {
        write!(f, "{} open", Counted(self.0.len(), "call"))?;
        if self.0.len() > MOST_TOLD {
            return Ok(());
        }
        let mut before = ": ";
        for id in self.0 {
            write!(f, "{before}{id}")?;
            before = ", ";
        }
        Ok(())
    }
}
