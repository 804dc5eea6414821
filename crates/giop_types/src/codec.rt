//! Values in CDR (CORBA 3.3 Part 2, 9.3): read, passed over, judged by a description, and written.
//! What octets spell is specs/Coding/Spells.antt.
pub mod append;
pub mod arriving;
pub mod build;
pub mod decoder;
pub mod encoder;
pub mod fitting;
pub mod leaf;
pub mod reading;
pub mod skip;
pub mod value_memory;
