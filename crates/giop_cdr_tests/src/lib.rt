//! What no row says of giop_cdr: longs read and written at once, and runs without memory. All else
//! are rows (tests/cases).
#![tactic(auto)]

#[cfg(test)]
mod tests;
