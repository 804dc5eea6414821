//! What no clause of giop_ior says: texts and octets worked by hand from the standard's rules, the
//! printed names, and that each call succeeds with ample memory.
#![tactic(auto)]

#[cfg(test)]
mod tests;
