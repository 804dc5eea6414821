//! What may happen to a call at a server. A new event takes a line in specs/ServerTable.antt, a
//! function in server/steps.rt and an arm in server/rule.rt.
use crate::aside::Aside;
use crate::kind::CallKind;
use crate::server::heard::HeardCall;
use giop_msg::Reply;

/// What may happen to a call at a server: a message of its client, or an act of the server itself.
///
/// A whole message comes decoded, so that the rule needs no interface.
#[derive(Debug, Drop)]
pub enum ServerEvent {
    /// The first piece of a Request or a LocateRequest comes, and more are to come.
    First {
        /// Which message it begins.
        kind: CallKind,
    },
    /// A Request or a LocateRequest comes in one piece.
    Whole {
        /// What it is.
        call: HeardCall,
    },
    /// A Fragment comes, and more are to come; or any Fragment where nothing is gathered.
    More {
        /// Whether it has the byte order of the pieces that are gathered.
        in_order: bool,
    },
    /// The last Fragment comes.
    Last {
        /// Whether it has the byte order of the pieces that are gathered.
        in_order: bool,
        /// What they are all together.
        call: HeardCall,
    },
    /// A CancelRequest comes.
    Cancel,
    /// The server answers a Request.
    Answer {
        /// Its reply.
        reply: Aside<Reply>,
        /// In how many pieces the reply is sent, of which the first goes out now.
        pieces: u32,
    },
    /// The server answers a LocateRequest.
    AnswerLocate {
        /// Whether the object is here.
        here: bool,
    },
    /// The next piece of the reply is sent.
    Send,
}
