//! What neither a clause of giop_session nor a row says: a refused allocation within a call, and
//! readers and writers that fail. Rows at ends are data (tests/cases).
#![tactic(auto)]

#[cfg(test)]
mod tests;
