//! How a client finds its object (CORBA 3.3 Part 2, 7.6): references (IORs) and their texts, IIOP
//! profiles (9.7.2), and corbaloc texts. Service contexts (7.7) are here too, since they are
//! spelled as tagged profiles are.
#![tactic(auto)]

mod addresses;
pub mod laws;
mod references;

pub use addresses::address::Address;
pub use addresses::corbaloc::Corbaloc;
pub use addresses::corbaloc_fault::{CorbalocFault, CorbalocKind};
pub use addresses::corbaloc_reading::corbaloc_from_text;
pub use addresses::corbaloc_writing::corbaloc_to_text;
pub use giop_ior_text::IorTextFault;
pub use references::iiop_reading::{iiop_view, profile_body};
pub use references::iiop_writing::iiop_profile;
pub use references::ior::{Ior, IorAt};
pub use references::ior_reading::{read_ior, view_ior};
pub use references::ior_text::{ior_from_text, ior_to_text};
pub use references::ior_writing::write_ior;
pub use references::profile::IiopProfile;
pub use references::sequence::Sequence;
pub use references::service_context::{ServiceContext, append_contexts, are_writable_contexts};
pub use references::tagged_profile::{TaggedComponent, TaggedProfile};
