//! The tests of giop_frag that no row of tests/cases can say.
mod memory;
mod pieces;
