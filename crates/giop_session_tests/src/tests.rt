//! The tests of giop_session that no row of tests/cases can say, a subject a file.
mod acts;
mod memory;
mod numbers;
mod pumping;
mod sessions;
