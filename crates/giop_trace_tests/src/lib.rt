//! What no clause of giop_trace says.
#![tactic(auto)]

#[cfg(test)]
mod tests;
