//! What the objects of a connection offer: operations and exceptions, by name.

pub mod interface;
mod objects;
pub mod offer;
pub mod parameters;
