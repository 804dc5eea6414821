//! Corbaloc texts (CORBA 3.3 Part 2, 7.6.10.1) and the addresses in them (7.6.10.3): read, written,
//! and made into references.
pub mod address;
pub mod address_reading;
pub mod corbaloc;
pub mod corbaloc_fault;
pub mod corbaloc_reading;
pub mod corbaloc_writing;
pub mod cuts;
pub mod key_text;
pub mod to_ior;
