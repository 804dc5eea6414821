//! What is stored for the id of a call at a server: all that `giop_server_entry_of` writes of it.
use giop_calls::{CallKind, Question, ServerEntry};
use giop_msg::{Reply, Request, RequestFault, Target};

/// The fields of `giop_server_entry`.
#[derive(Clone, Copy)]
pub struct Row {
    operation: usize,
    key: usize,
    contexts: usize,
    at: usize,
    number: u32,
    left: u32,
    status: u32,
    part: u8,
    pub kind: u8,
    awaits: u8,
    over: u8,
    outcome: u8,
    flags: u8,
}

/// The kind of a call that waits for a Reply.
pub const ASKED: u8 = 2;

const NOTHING: Row = Row {
    operation: 0,
    key: 0,
    contexts: 0,
    at: 0,
    number: 0,
    left: 0,
    status: 0,
    part: 0,
    kind: 0,
    awaits: 0,
    over: 0,
    outcome: 0,
    flags: 0,
};

impl Row {
    /// What is stored under an id.
    pub fn of(entry: Option<&ServerEntry>) -> Row {
        match entry {
            Some(entry) => Row::of_entry(entry),
            None => NOTHING,
        }
    }

    fn of_entry(entry: &ServerEntry) -> Row {
        match entry {
            ServerEntry::Gathering { .. } => Row { kind: 1, ..NOTHING },
            ServerEntry::Asked { request } => Row {
                kind: ASKED,
                awaits: 1,
                ..of_request(request)
            },
            ServerEntry::Undecoded { call } => undecoded(call.fault, call.expects),
            ServerEntry::LocateAsked { request } => Row {
                kind: 4,
                awaits: 2,
                key: key_size(&request.target),
                ..NOTHING
            },
            ServerEntry::Answered { asked, reply, left } => answered(asked, reply, *left),
            ServerEntry::LocateAnswered { target, here } => Row {
                kind: 6,
                over: 1,
                outcome: 4,
                status: u32::from(*here),
                key: target.as_ref().map_or(0, |target| key_size(target)),
                ..NOTHING
            },
            ServerEntry::Delivered { request } => Row {
                kind: 7,
                over: 1,
                outcome: 2,
                ..of_request(request)
            },
            ServerEntry::Cancelled { left, .. } => Row {
                kind: 8,
                left: *left,
                over: u8::from(*left == 0),
                outcome: 1,
                ..NOTHING
            },
        }
    }

    /// All of its fields in one number.
    pub fn all(&self) -> u64 {
        let sizes = self.operation ^ self.key << 8 ^ self.contexts << 16 ^ self.at << 24;
        let numbers = self.number ^ self.left << 8 ^ self.status << 16;
        let call = u32::from(self.part) ^ u32::from(self.kind) << 4 ^ u32::from(self.awaits) << 8;
        let end = u32::from(self.over) ^ u32::from(self.outcome) << 4 ^ u32::from(self.flags) << 8;
        sizes as u64 ^ u64::from(numbers) << 8 ^ u64::from(call) << 32 ^ u64::from(end) << 44
    }
}

fn of_request(request: &Request) -> Row {
    Row {
        operation: request.head.operation.len(),
        key: key_size(&request.head.target),
        contexts: request.head.contexts.len(),
        flags: request.head.flags,
        ..NOTHING
    }
}

fn answered(asked: &Question, reply: &Reply, left: u32) -> Row {
    let call = match asked {
        Question::Request(request) => of_request(request),
        Question::Undecoded(fault) => of_fault(*fault),
    };
    let over = left == 0;
    Row {
        kind: 5,
        left,
        over: u8::from(over),
        outcome: if over { 3 } else { 0 },
        status: reply.body.status(),
        ..call
    }
}

fn undecoded(fault: RequestFault, expects: Option<CallKind>) -> Row {
    let (awaits, over, outcome) = match expects {
        None => (0, 1, 5),
        Some(CallKind::Request) => (1, 0, 0),
        Some(CallKind::Locate) => (2, 0, 0),
    };
    Row {
        kind: 3,
        awaits,
        over,
        outcome,
        ..of_fault(fault)
    }
}

fn of_fault(fault: RequestFault) -> Row {
    let (part, number, at) = match fault {
        RequestFault::Header(fault) => (1, u32::from(fault.number()), fault.at),
        RequestFault::Operation => (2, 0, 0),
        RequestFault::Body(fault) => (3, u32::from(fault.number()), fault.at),
    };
    Row {
        part,
        number,
        at,
        ..NOTHING
    }
}

fn key_size(target: &Target) -> usize {
    match target {
        Target::Key(key) => key.len(),
        _ => 0,
    }
}
