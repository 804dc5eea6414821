//! CDR, the Common Data Representation (CORBA 3.3 Part 2, 9.3): aligned numbers, strings, sequences
//! of octets and encapsulations, in either byte order. `CdrIn` reads them from any store of octets,
//! and `CdrOut` writes them.
#![tactic(auto)]

mod encode_fault;
mod fault;
mod input;
pub mod laws;
mod octet_list;
mod octets;
mod order;
mod output;

pub use encode_fault::EncodeFault;
pub use fault::{CdrFault, CdrKind};
pub use input::octets_at::OctetsAt;
pub use input::reader::CdrIn;
pub use input::sequences::passes;
pub use input::tagged::Tagged;
pub use input::tagged_list_at::{TaggedAt, TaggedIter, TaggedListAt};
pub use octet_list::OctetList;
pub use octets::{Octets, SliceOctets};
pub use order::Order;
pub use output::checkpoint::Checkpoint;
pub use output::mark::Mark;
pub use output::writer::CdrOut;
