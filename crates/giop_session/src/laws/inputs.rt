//! The inputs that `run_server` and `run_client` give an end, what it answers to each, and the
//! events of a world of two ends (`run_world`). What an input does is `SideIsGiven` in
//! specs/Runs/SideRuns.antt, by what it is to an end of its side, `server_deed` in
//! specs/Runs/ServerRuns.antt and `client_deed` in specs/Runs/ClientRuns.antt; and what an event
//! does is `Happens` in specs/Worlds/World.antt.
ghost use Rattle.std.specs.Prelude.{◌≡◌, ◌↔◌, IfSome, IsSome};
ghost use Rattle.giop_end.specs.Acts.Form.{IsForm};

use giop_cdr::{OctetList, Order};
use giop_end::{Form, SessionFault};
use giop_msg::{LocateRequest, Reply, Request};

/// A form in which messages can be sent.
#[derive(Clone, Copy, Debug)]
pub struct CheckedForm {
    pub form: Form,
    pub ghost sound: { IsForm form },
}

impl CheckedForm {
    /// The form, where messages can be sent so: its piece is a multiple of 8, and 24 at least.
    pub fn check(form: Form) -> Option<CheckedForm>
        ensures found { IsSome result ↔ IsForm form }
        ensures value { IfSome result (λ checked. checked.form ≡ form) }
    {
        if form.is_valid() {
            Some(CheckedForm { form })
        } else {
            None
        }
    }
}

/// What a server's end is given: octets of its client, or what its own program does.
#[derive(Debug, Drop)]
pub enum ServerInput {
    /// Octets of the client, as of one read.
    Feed(OctetList),
    /// A Request is answered.
    Answer {
        /// The Reply, with the id of the Request.
        reply: Reply,
        /// How it is sent.
        form: CheckedForm,
    },
    /// A LocateRequest is answered.
    AnswerLocate {
        /// Its id.
        id: u32,
        /// Whether the object is here.
        here: bool,
        /// The byte order of the LocateReply.
        order: Order,
    },
    /// The next piece of this id's Reply is put out.
    Send(u32),
    /// The entry of this id is taken out, where its call is over.
    Take(u32),
    /// The connection is closed.
    Close,
}

/// What a client's end is given: octets of its server, or what its own program does.
#[derive(Debug, Drop)]
pub enum ClientInput {
    /// Octets of the server, as of one read.
    Feed(OctetList),
    /// An operation is called.
    Call {
        /// The Request, with its id.
        request: Request,
        /// How it is sent.
        form: CheckedForm,
    },
    /// A LocateRequest asks where an object is.
    Locate {
        /// The LocateRequest, with its id.
        request: LocateRequest,
        /// How it is sent.
        form: CheckedForm,
    },
    /// The call of an id is cancelled.
    Cancel {
        /// The id.
        id: u32,
        /// The byte order of the CancelRequest.
        order: Order,
    },
    /// The next piece of this id's call is put out.
    Send(u32),
    /// The entry of this id is taken out, where its call is over.
    Take(u32),
    /// The connection is closed.
    Close,
}

/// What an end answers to one input.
#[derive(Debug, Drop)]
pub enum Answered<E> {
    /// It was done.
    Done,
    /// The entry was taken out, and is this; `None` where there was none.
    Taken(Option<E>),
    /// It was refused, for this reason.
    Refused(SessionFault),
}

/// What happens in a world: what the program of one end does, or octets that arrive.
#[derive(Debug, Drop)]
pub enum WorldEvent {
    /// The client calls an operation.
    Call {
        /// The Request, with its id.
        request: Request,
        /// How it is sent.
        form: CheckedForm,
    },
    /// The client asks where an object is.
    Locate {
        /// The LocateRequest, with its id.
        request: LocateRequest,
        /// How it is sent.
        form: CheckedForm,
    },
    /// The client cancels the call of an id.
    Cancel {
        /// The id.
        id: u32,
        /// The byte order of the CancelRequest.
        order: Order,
    },
    /// The client puts out the next piece of this id's call.
    SendClient(u32),
    /// The server answers a Request.
    Answer {
        /// The Reply, with the id of the Request.
        reply: Reply,
        /// How it is sent.
        form: CheckedForm,
    },
    /// The server answers a LocateRequest.
    AnswerLocate {
        /// Its id.
        id: u32,
        /// Whether the object is here.
        here: bool,
        /// The byte order of the LocateReply.
        order: Order,
    },
    /// The server puts out the next piece of this id's Reply.
    SendServer(u32),
    /// Up to so many octets arrive at the server's end: the first that are on their way.
    ToServer(usize),
    /// Up to so many octets arrive at the client's end.
    ToClient(usize),
}
