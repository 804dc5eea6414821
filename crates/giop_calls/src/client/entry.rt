//! What is stored for the id of a call at a client. What each event makes of an entry, and which
//! are closed, is specs/ClientTable.antt: change both.
ghost use Rattle.std.specs.Prelude.{◌≡◌};
ghost use Rattle.giop_calls.specs.ClientTable as table;
ghost use Rattle.giop_calls.specs.Outcomes.{copied};

use crate::aside::Aside;
use crate::client::call::Call;
use crate::client::late::Late;
use crate::locate_call::LocateCall;
use crate::outcome::Outcome;
use giop_cdr::CdrFault;
use giop_msg::{LocateReply, Reply, Request};

/// What is stored for the id of a call at a client.
#[derive(Debug, Drop)]
pub enum ClientEntry {
    /// Its first piece went out, its last didn't.
    Sending {
        /// The call.
        call: Call,
        /// How many of its pieces aren't sent yet.
        left: u32,
    },
    /// All of it went out, and nothing of its reply came.
    Waiting {
        /// The call.
        call: Call,
    },
    /// The first piece of its reply came, the last didn't.
    Gathering {
        /// The call.
        call: Call,
    },
    /// It was a Request, and its Reply came.
    Done {
        /// The request.
        request: Aside<Request>,
        /// Its reply.
        reply: Aside<Reply>,
    },
    /// It was a LocateRequest, and its LocateReply came.
    LocateDone {
        /// The request.
        request: LocateCall,
        /// Its reply.
        reply: LocateReply,
    },
    /// Its reply came and can't be decoded.
    Undecoded {
        /// The call.
        call: Call,
        /// What is wrong with the reply.
        fault: CdrFault,
    },
    /// It was a Request without a reply, and all of it went out.
    OnewaySent {
        /// The request.
        request: Aside<Request>,
    },
    /// It was cancelled.
    Cancelled {
        /// How much came of its reply, before the cancel or after.
        late: Late,
    },
}

impl ClientEntry {
    /// Whether the call is over, so that its id may be used again, and its entry taken out: it is
    /// Done, LocateDone, Undecoded or OnewaySent; or Cancelled, and its reply came all the same. It
    /// takes no memory.
    pub fn is_closed(&self) -> bool
        ensures { result ≡ table.is_closed self.now }
    {
        match self {
            ClientEntry::Done { .. } => true,
            ClientEntry::LocateDone { .. } => true,
            ClientEntry::Undecoded { .. } => true,
            ClientEntry::OnewaySent { .. } => true,
            ClientEntry::Cancelled { late: Late::Seen } => true,
            ClientEntry::Cancelled { .. } => false,
            ClientEntry::Sending { .. } => false,
            ClientEntry::Waiting { .. } => false,
            ClientEntry::Gathering { .. } => false,
        }
    }

    /// Whether pieces of the reply are gathered. It takes no memory.
    pub fn is_gathering(&self) -> bool
        ensures { result ≡ table.is_gathering self.now }
    {
        matches!(self, ClientEntry::Gathering { .. })
    }

    /// How many pieces of the call aren't sent yet. It takes no memory.
    pub fn left(&self) -> u32
        ensures { result ≡ table.left_of self.now }
    {
        match self {
            ClientEntry::Sending { left, .. } => *left,
            _ => 0,
        }
    }

    /// What the call came to. It takes no memory.
    pub fn outcome(&self) -> Outcome<&Reply>
        ensures { copied result ≡ table.outcome self.now }
    {
        match self {
            ClientEntry::Done { reply, .. } => Outcome::Replied(reply),
            ClientEntry::LocateDone { reply, .. } => Outcome::Located(reply.head.status),
            ClientEntry::Undecoded { .. } => Outcome::Undecoded,
            ClientEntry::OnewaySent { .. } => Outcome::OneWay,
            ClientEntry::Cancelled { .. } => Outcome::Cancelled,
            _ => Outcome::Pending,
        }
    }
}
