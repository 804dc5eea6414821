//! The tests of giop_trace: what a run of `trace` can't say (tests/cases/trace has the others).
mod memory;
