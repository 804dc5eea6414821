//! What no clause of giop_commands and giop_lines says.
#![tactic(auto)]

#[cfg(test)]
mod tests;
