//! The path to a part of a file, as standard error has it.

use giop_where::Step;
use std::fmt;

/// Keys behind `.` and indices in `[]`; of a whole file it is `.`.
#[derive(Clone, Copy)]
pub struct PathShown<'a>(pub &'a [Step]);

impl fmt::Display for PathShown<'_> {
    fn fmt<W: fmt::Write>(&self, f: &mut fmt::Formatter<W>) -> fmt::Result {
        if self.0.is_empty() {
            f.write_str(".")?;
        }
        for (i, step) in self.0.iter().enumerate() {
            match step {
                Step::Key(key) if i == 0 => f.write_str(key.as_str())?,
                _ => write!(f, "{step}")?,
            }
        }
        Ok(())
    }
}
