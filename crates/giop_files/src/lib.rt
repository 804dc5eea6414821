//! What giopctl's commands have in common over files: files that are read, where a refused one is at
//! fault, and what standard error says.
#![tactic(auto)]

pub mod files;
pub mod laws;
pub mod places;
pub mod report;
