//! What neither a clause of giop_types nor a row says: runs without memory, and calls that no
//! program of rows makes. All else are rows (tests/cases).
#![tactic(auto)]

#[cfg(test)]
mod tests;
