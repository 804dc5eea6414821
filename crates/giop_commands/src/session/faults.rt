//! What is told of the fault that ended a session: its line, its object in JSON, and the exit status
//! of the program.

pub mod broken;
pub mod json;
pub mod lines;
