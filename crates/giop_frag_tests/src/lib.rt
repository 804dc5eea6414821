//! What neither a clause of giop_frag nor a row says: a refused allocation within a call, and a
//! message decoded where its pieces lie. Rows of a gatherer are data (tests/cases).
#![tactic(auto)]

#[cfg(test)]
mod tests;
