//! Laws of the definitions that contracts cite. Each function's contract is one of them; the bodies
//! are empty, and no program calls them.
mod heads;
mod messages;
mod stream;

pub use heads::{
    locate_reply_heads_are_spelled, locate_requests_are_spelled, reply_heads_are_spelled,
    request_heads_are_spelled,
};
pub use messages::{
    locate_replies_are_spelled, objects_are_apart, refusals_are_told, replies_are_spelled,
    requests_are_spelled, whole_locate_requests_are_spelled,
};
pub use stream::{
    cuts_are_undone, every_stream_splits, faults_stand, header_round_trip, one_split, request_ids,
    split_on,
};
