//! The tests of giop_mux, over a rule of numbers.
mod memory;
mod numbers;
