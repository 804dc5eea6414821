//! What neither a clause of giop_calls nor a row says: the number of a fault that no line shows. Each
//! event at each entry is a row (tests/cases).
#![tactic(auto)]

#[cfg(test)]
mod tests;
