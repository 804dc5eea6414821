//! The fragments of messages, joined (CORBA 3.3 Part 2, 9.4.9). The pieces of many messages come
//! interleaved, and a `Gather` joins the octets of each under its request id, in a list of its own.
//! They are stored in blocks from one pool; the design is in `docs/ARCHITECTURE.md`.
#![tactic(auto)]

mod block;
mod blocks;
mod chain;
mod chunk;
mod fault;
mod gather;
mod joined;
pub mod laws;
mod lists;
mod pool;

pub use chain::Chain;
pub use fault::GatherFault;
pub use gather::Gather;
