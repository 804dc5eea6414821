//! GIOP messages of versions 1.0 to 1.2 on the wire (CORBA 3.3 Part 2, 9.4): the framer that splits
//! a stream of octets into messages, their heads, whole Requests and Replies, and cutting into
//! fragments. It knows no connection.
#![tactic(auto)]

mod cutting;
mod fault;
mod framer;
mod header;
mod joined;
mod kind;
mod laid_out;
pub mod laws;
mod locate_reply_head;
mod locate_request;
mod messages;
mod msg;
mod reply_head;
mod reply_head_writing;
mod request_head;
mod request_head_copying;
mod request_head_writing;
mod request_id;
mod service_contexts;
mod status;
mod stream;
mod target;
mod target_reading;
mod target_writing;
mod version;

pub use cutting::{can_cut, cut};
pub use fault::{WireFault, WireKind};
pub use framer::Framer;
pub use giop_ior::ServiceContext;
pub use header::Header;
pub use kind::Kind;
pub use locate_reply_head::LocateReplyHead;
pub use locate_request::{LocateRequest, LocateRequestAt};
pub use messages::alone::{values_from_octets, values_to_octets};
pub use messages::completion::Completion;
pub use messages::locate_reply::LocateReply;
pub use messages::reply::Reply;
pub use messages::reply_body::ReplyBody;
pub use messages::reply_reading::{offer_for, outs_for};
pub use messages::request::Request;
pub use messages::request_fault::RequestFault;
pub use msg::Msg;
pub use reply_head::{ReplyHead, ReplyHeadAt};
pub use request_head::{RequestHead, RequestHeadAt};
pub use service_contexts::{ServiceContexts, ServiceContextsAt};
pub use stream::{StreamRead, read_pieces};
pub use target::{ProfileAt, Target, TargetAt};
pub use version::Version;
