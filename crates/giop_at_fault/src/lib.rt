//! Where a file of calls or of answers is at fault that an interface refuses, as giop_where tells it
//! of a value.
#![tactic(auto)]

pub mod answers;
pub mod calls;
