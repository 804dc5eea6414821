//! Writing CDR (CORBA 3.3 Part 2, 9.3): the writer `CdrOut`, and the places in it to which a caller
//! goes back. What each write appends is defined in `specs/Writing/Output.antt`.
pub mod appending;
pub mod checkpoint;
pub mod longs;
pub mod mark;
pub mod values;
pub mod writer;
