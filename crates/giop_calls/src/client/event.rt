//! What may happen to a call at a client. A new event takes a line in specs/ClientTable.antt, a
//! function in client/steps.rt and an arm in client/rule.rt.
use crate::client::call::Call;
use crate::client::heard::HeardReply;
use crate::kind::CallKind;
use giop_msg::Version;

/// What may happen to a call at a client: an act of the client itself, or a message of its server.
///
/// A whole reply comes decoded, so that the rule needs no interface.
#[derive(Debug, Drop)]
pub enum ClientEvent {
    /// The client calls.
    Call {
        /// The Request or the LocateRequest.
        call: Call,
        /// In how many pieces it is sent, of which the first goes out now.
        pieces: u32,
    },
    /// The next piece of the call is sent.
    Send,
    /// The client cancels.
    Cancel,
    /// The first piece of a Reply or a LocateReply comes, and more are to come.
    First {
        /// What the message answers.
        kind: CallKind,
        /// Its version.
        version: Version,
    },
    /// A Reply or a LocateReply comes in one piece.
    Whole {
        /// What the message answers.
        kind: CallKind,
        /// Its version.
        version: Version,
        /// What it is.
        reply: HeardReply,
    },
    /// A Fragment comes, and more are to come.
    More {
        /// Whether it has the byte order of the pieces that are gathered.
        in_order: bool,
    },
    /// The last Fragment comes.
    Last {
        /// Whether it has the byte order of the pieces that are gathered.
        in_order: bool,
        /// What they are all together.
        reply: HeardReply,
    },
}
