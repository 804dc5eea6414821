//! What neither a clause of giop_msg nor a row says: that each call succeeds again after a refused
//! allocation, and that want of memory hides no fault. All else are rows (tests/cases).
#![tactic(auto)]

#[cfg(test)]
mod tests;
