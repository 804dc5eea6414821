//! Reading CDR (CORBA 3.3 Part 2, 9.3): the reader `CdrIn`, and views of values where they lie.
//! What each read returns is defined in `specs/Reading/Values.antt`.
pub mod borrowing;
pub mod longs;
pub mod numbers;
pub mod octets_at;
pub mod reader;
pub mod runs;
pub mod sequences;
pub mod tagged;
pub mod tagged_list_at;
pub mod wide_order;
