//! The rule of a server, for rows.

use crate::made;
use crate::ruled::{Ruled, kind, kind_word, version};
use anyhow::{Result, bail};
use giop_calls::{
    CallKind, HeardCall, Outcome, Question, ServerEntry, ServerEvent, ServerRule, UndecodedCall,
};
use giop_msg::{Reply, Version};
use rows::{is_first, number, small};
use std::alloc::{AllocError, Global};
use std::fmt::Write;

impl Ruled for ServerRule {
    fn event(alloc: Global, words: &[&str]) -> Result<ServerEvent> {
        Ok(match words {
            ["first", word] => ServerEvent::First { kind: kind(word)? },
            ["whole", call @ ..] => ServerEvent::Whole {
                call: heard(alloc, call)?,
            },
            ["more", order] => ServerEvent::More {
                in_order: is_first(order, "in-order", "out-of-order")?,
            },
            ["last", order, call @ ..] => ServerEvent::Last {
                in_order: is_first(order, "in-order", "out-of-order")?,
                call: heard(alloc, call)?,
            },
            ["cancel"] => ServerEvent::Cancel,
            ["answer", of, pieces] => ServerEvent::Answer {
                reply: made::reply(alloc, version(of)?)?,
                pieces: number(pieces)?,
            },
            ["answer-exception", of, pieces] => ServerEvent::Answer {
                reply: made::exception(alloc, version(of)?)?,
                pieces: number(pieces)?,
            },
            ["answer-locate", word] => ServerEvent::AnswerLocate {
                here: is_first(word, "here", "unknown")?,
            },
            ["send"] => ServerEvent::Send,
            _ => bail!("no event of a server"),
        })
    }

    fn entry(alloc: Global, words: &[&str]) -> Result<Option<ServerEntry>> {
        match words {
            ["absent"] => Ok(None),
            words => Ok(Some(entry(alloc, words)?)),
        }
    }

    fn write_entry(text: &mut String, entry: &ServerEntry) -> Result<(), AllocError> {
        match entry {
            ServerEntry::Gathering { .. } => text.push_str("gathering"),
            ServerEntry::Asked { .. } => text.push_str("asked"),
            ServerEntry::Undecoded { call } => { write!(text, "undecoded {}", expects_word(call)) }
            ServerEntry::LocateAsked { .. } => text.push_str("locate-asked"),
            ServerEntry::Answered { left, .. } => write!(text, "answered {left}"),
            ServerEntry::LocateAnswered { target, here } => {
                text.push_str(if *here {
                    "located here"
                } else {
                    "located unknown"
                })?;
                text.push_str(if target.is_some() { " target" } else { "" })
            }
            ServerEntry::Delivered { .. } => text.push_str("delivered"),
            ServerEntry::Cancelled { answered, left } => {
                write!(text, "cancelled {answered} {left}")
            }
        }
    }

    fn outcome(entry: &ServerEntry) -> Outcome<&Reply> {
        entry.outcome()
    }
}

fn expects_word(call: &UndecodedCall) -> &'static str {
    match call.expects {
        Some(kind) => kind_word(kind),
        None => "none",
    }
}

// What an undecoded call expects: a reply of a kind, or none.
fn expects(word: &str) -> Result<Option<CallKind>> {
    match word {
        "none" => Ok(None),
        word => Ok(Some(kind(word)?)),
    }
}

// What comes: `request FLAGS VERSION`, `locate`, or `undecoded EXPECTS`.
fn heard(alloc: Global, words: &[&str]) -> Result<HeardCall> {
    Ok(match words {
        ["request", word, of] => {
            HeardCall::Request(made::request(alloc, small(word)?, version(of)?)?)
        }
        ["locate"] => HeardCall::Locate(made::locate_request(alloc, Version::V12)?),
        ["undecoded", word] => HeardCall::Undecoded(made::undecoded(expects(word)?)),
        _ => bail!("no call"),
    })
}

fn entry(alloc: Global, words: &[&str]) -> Result<ServerEntry> {
    Ok(match words {
        ["gathering"] => ServerEntry::Gathering {
            kind: CallKind::Request,
        },
        ["asked"] => ServerEntry::Asked {
            request: made::request(alloc, 3, Version::V12)?,
        },
        ["undecoded", word] => ServerEntry::Undecoded {
            call: made::undecoded(expects(word)?),
        },
        ["locate-asked"] => ServerEntry::LocateAsked {
            request: made::locate_request(alloc, Version::V12)?,
        },
        ["answered", left] => ServerEntry::Answered {
            asked: Question::Request(made::request(alloc, 3, Version::V12)?),
            reply: made::reply(alloc, Version::V12)?,
            left: number(left)?,
        },
        ["located", word] => ServerEntry::LocateAnswered {
            target: None,
            here: is_first(word, "here", "unknown")?,
        },
        ["delivered"] => ServerEntry::Delivered {
            request: made::request(alloc, 0, Version::V12)?,
        },
        ["cancelled", word, left] => ServerEntry::Cancelled {
            answered: is_first(word, "true", "false")?,
            left: number(left)?,
        },
        _ => bail!("no entry of a server"),
    })
}
