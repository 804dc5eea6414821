//! What neither a clause of giop_mux nor a row says: a table without memory, and an event that
//! leaves no entry. All else are rows (tests/cases/call_tables).
#![tactic(auto)]

#[cfg(test)]
mod tests;
