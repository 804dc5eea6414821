//! The rule of a client, for rows.

use crate::made;
use crate::ruled::{Ruled, kind, kind_word, version};
use anyhow::{Result, bail};
use giop_calls::{Call, CallKind, ClientEntry, ClientEvent, ClientRule, HeardReply, Late, Outcome};
use giop_msg::{Reply, Version};
use rows::{is_first, number, small};
use std::alloc::{AllocError, Global};
use std::fmt::Write;

impl Ruled for ClientRule {
    fn event(alloc: Global, words: &[&str]) -> Result<ClientEvent> {
        Ok(match words {
            ["call", "locate", pieces] => ClientEvent::Call {
                call: call(alloc, CallKind::Locate)?,
                pieces: number(pieces)?,
            },
            ["call", word, pieces] => ClientEvent::Call {
                call: Call::Request(made::request(alloc, small(word)?, Version::V12)?),
                pieces: number(pieces)?,
            },
            ["send"] => ClientEvent::Send,
            ["cancel"] => ClientEvent::Cancel,
            ["first", word, of] => ClientEvent::First {
                kind: kind(word)?,
                version: version(of)?,
            },
            ["whole", word, of, reply] => ClientEvent::Whole {
                kind: kind(word)?,
                version: version(of)?,
                reply: heard(alloc, reply)?,
            },
            ["more", order] => ClientEvent::More {
                in_order: is_first(order, "in-order", "out-of-order")?,
            },
            ["last", order, reply] => ClientEvent::Last {
                in_order: is_first(order, "in-order", "out-of-order")?,
                reply: heard(alloc, reply)?,
            },
            _ => bail!("no event of a client"),
        })
    }

    fn entry(alloc: Global, words: &[&str]) -> Result<Option<ClientEntry>> {
        match words {
            ["absent"] => Ok(None),
            words => Ok(Some(entry(alloc, words)?)),
        }
    }

    fn write_entry(text: &mut String, entry: &ClientEntry) -> Result<(), AllocError> {
        match entry {
            ClientEntry::Sending { call, left } => {
                write!(text, "sending {} {left}", call_word(call))
            }
            ClientEntry::Waiting { call } => write!(text, "waiting {}", call_word(call)),
            ClientEntry::Gathering { call } => write!(text, "gathering {}", call_word(call)),
            ClientEntry::Done { .. } => text.push_str("done"),
            ClientEntry::LocateDone { .. } => text.push_str("locate-done"),
            ClientEntry::Undecoded { .. } => text.push_str("undecoded"),
            ClientEntry::OnewaySent { .. } => text.push_str("oneway-sent"),
            ClientEntry::Cancelled { late: Late::None } => text.push_str("cancelled none"),
            ClientEntry::Cancelled { late: Late::Begun } => text.push_str("cancelled begun"),
            ClientEntry::Cancelled { late: Late::Seen } => text.push_str("cancelled seen"),
        }
    }

    fn outcome(entry: &ClientEntry) -> Outcome<&Reply> {
        entry.outcome()
    }
}

fn call_word(call: &Call) -> &'static str {
    match call {
        Call::Request(_) => kind_word(CallKind::Request),
        Call::Locate(_) => kind_word(CallKind::Locate),
    }
}

fn call(alloc: Global, kind: CallKind) -> Result<Call, AllocError> {
    Ok(match kind {
        CallKind::Request => Call::Request(made::request(alloc, 3, Version::V12)?),
        CallKind::Locate => Call::Locate(made::locate_request(alloc, Version::V12)?),
    })
}

// What comes: `reply`, `locate-reply`, `undecoded` or `unread`.
fn heard(alloc: Global, word: &str) -> Result<HeardReply> {
    Ok(match word {
        "reply" => HeardReply::Reply(made::reply(alloc, Version::V12)?),
        "locate-reply" => HeardReply::Locate(made::locate_reply(alloc, 1)),
        "undecoded" => HeardReply::Undecoded(made::fault()),
        "unread" => HeardReply::Unread,
        _ => bail!("no reply: {word}"),
    })
}

fn late(word: &str) -> Result<Late> {
    Ok(match word {
        "none" => Late::None,
        "begun" => Late::Begun,
        "seen" => Late::Seen,
        _ => bail!("no late reply: {word}"),
    })
}

fn entry(alloc: Global, words: &[&str]) -> Result<ClientEntry> {
    Ok(match words {
        ["sending", word, left] => ClientEntry::Sending {
            call: call(alloc, kind(word)?)?,
            left: number(left)?,
        },
        ["waiting", word] => ClientEntry::Waiting {
            call: call(alloc, kind(word)?)?,
        },
        ["gathering", word] => ClientEntry::Gathering {
            call: call(alloc, kind(word)?)?,
        },
        ["done"] => ClientEntry::Done {
            request: made::request(alloc, 3, Version::V12)?,
            reply: made::reply(alloc, Version::V12)?,
        },
        ["locate-done", status] => ClientEntry::LocateDone {
            request: made::locate_request(alloc, Version::V12)?,
            reply: made::locate_reply(alloc, number(status)?),
        },
        ["undecoded"] => ClientEntry::Undecoded {
            call: call(alloc, CallKind::Request)?,
            fault: made::fault(),
        },
        ["oneway-sent"] => ClientEntry::OnewaySent {
            request: made::request(alloc, 0, Version::V12)?,
        },
        ["cancelled", word] => ClientEntry::Cancelled { late: late(word)? },
        _ => bail!("no entry of a client"),
    })
}
