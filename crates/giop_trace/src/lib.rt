//! An observer of one connection, without IO: what its messages of both directions come to, call by
//! call (CORBA 3.3 Part 2, 9.4). It decodes nothing but what it needs to tell the calls apart.
#![tactic(auto)]

mod direction;
mod flow;
mod heard;
mod keep;
pub mod laws;
mod observer;
mod steps;

pub use direction::Direction;
pub use flow::Flow;
pub use heard::Heard;
pub use keep::Keep;
pub use observer::Observer;
