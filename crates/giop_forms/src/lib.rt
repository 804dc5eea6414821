//! In which form giopctl's commands tell what they read, and which way a value is converted. What
//! the command line asks for and what a command does have these in common, and nothing else, so
//! that neither waits for the other's proof.
#![tactic(auto)]

mod line_form;
mod way;

pub use line_form::LineForm;
pub use way::Way;
