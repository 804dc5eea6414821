//! Interface files in which types have names, and their plain forms, worked by hand.
#![tactic(auto)]

#[cfg(test)]
mod tests;
