//! What is stored for the id of a call at a server. What each event makes of an entry, and which
//! are closed, is specs/ServerTable.antt: change both.
ghost use Rattle.std.specs.Prelude.{◌≡◌};
ghost use Rattle.giop_calls.specs.ServerTable as table;
ghost use Rattle.giop_calls.specs.Outcomes.{copied};

use crate::aside::Aside;
use crate::kind::CallKind;
use crate::locate_call::LocateCall;
use crate::outcome::Outcome;
use crate::server::question::Question;
use crate::server::undecoded::UndecodedCall;
use giop_msg::{Reply, Request, Target};

/// What is stored for the id of a call at a server.
#[derive(Debug, Drop)]
pub enum ServerEntry {
    /// A first piece of it came, its last didn't.
    Gathering {
        /// Which message comes.
        kind: CallKind,
    },
    /// A Request that expects a reply came whole, and isn't answered.
    Asked {
        /// The request.
        request: Aside<Request>,
    },
    /// A Request or a LocateRequest came whole that can't be decoded.
    Undecoded {
        /// What is known of it.
        call: UndecodedCall,
    },
    /// A LocateRequest came whole, and isn't answered.
    LocateAsked {
        /// The request, with its version and its target.
        request: LocateCall,
    },
    /// A Request was answered.
    Answered {
        /// The request or its fault.
        asked: Question,
        /// The reply.
        reply: Aside<Reply>,
        /// How many pieces of the reply aren't sent yet.
        left: u32,
    },
    /// A LocateRequest was answered.
    LocateAnswered {
        /// Its target, where it could be decoded.
        target: Option<Aside<Target>>,
        /// Whether the object is here.
        here: bool,
    },
    /// A Request without a reply came whole.
    Delivered {
        /// The request.
        request: Aside<Request>,
    },
    /// A CancelRequest came for it.
    Cancelled {
        /// Whether it was answered before.
        answered: bool,
        /// How many pieces of the reply aren't sent yet.
        left: u32,
    },
}

impl ServerEntry {
    /// Whether the call is over, so that its id may be used again, and its entry taken out. It is
    /// over where it is Delivered or LocateAnswered; Undecoded, and no reply is expected; Answered
    /// or Cancelled, and no piece is left to be sent. It takes no memory.
    pub fn is_closed(&self) -> bool
        ensures { result ≡ table.is_closed self.now }
    {
        match self {
            ServerEntry::Answered { left, .. } => *left == 0,
            ServerEntry::Cancelled { left, .. } => *left == 0,
            ServerEntry::LocateAnswered { .. } => true,
            ServerEntry::Delivered { .. } => true,
            ServerEntry::Undecoded { call } => call.expects.is_none(),
            ServerEntry::Gathering { .. } => false,
            ServerEntry::Asked { .. } => false,
            ServerEntry::LocateAsked { .. } => false,
        }
    }

    /// Whether pieces of the call are gathered. It takes no memory.
    pub fn is_gathering(&self) -> bool
        ensures { result ≡ table.is_gathering self.now }
    {
        matches!(self, ServerEntry::Gathering { .. })
    }

    /// How many pieces of the reply aren't sent yet. It takes no memory.
    pub fn left(&self) -> u32
        ensures { result ≡ table.left_of self.now }
    {
        match self {
            ServerEntry::Answered { left, .. } => *left,
            ServerEntry::Cancelled { left, .. } => *left,
            _ => 0,
        }
    }

    /// What the call came to. It takes no memory.
    pub fn outcome(&self) -> Outcome<&Reply>
        ensures { copied result ≡ table.outcome self.now }
    {
        match self {
            ServerEntry::Answered { reply, left, .. } if *left == 0 => Outcome::Replied(reply),
            ServerEntry::LocateAnswered { here, .. } => Outcome::Located(*here as u32),
            ServerEntry::Delivered { .. } => Outcome::OneWay,
            ServerEntry::Cancelled { .. } => Outcome::Cancelled,
            ServerEntry::Undecoded { call } if call.expects.is_none() => Outcome::Undecoded,
            _ => Outcome::Pending,
        }
    }
}
