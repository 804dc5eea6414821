//! What an end is given, by the words of a row.

use crate::messages::{locate_request, reply, request};
use crate::words::form;
use anyhow::{Result, bail};
use giop_cdr::OctetList;
use giop_session::laws::{ClientInput, ServerInput};
use rows::{number, octets, order};
use std::alloc::Global;

/// What a server's end is given.
pub fn server_input(alloc: Global, words: &[&str]) -> Result<ServerInput> {
    Ok(match words {
        ["hear", digits] => ServerInput::Feed(OctetList::from(octets(alloc, digits)?)),
        ["answer", version, id, order, piece, body @ ..] => ServerInput::Answer {
            reply: reply(alloc, version, id, body)?,
            form: form(order, piece)?,
        },
        ["here", id, word] => ServerInput::AnswerLocate {
            id: number(id)?,
            here: true,
            order: order(word)?,
        },
        ["unknown", id, word] => ServerInput::AnswerLocate {
            id: number(id)?,
            here: false,
            order: order(word)?,
        },
        ["send", id] => ServerInput::Send(number(id)?),
        ["take", id] => ServerInput::Take(number(id)?),
        ["close"] => ServerInput::Close,
        _ => bail!("a server does no such thing"),
    })
}

/// What a client's end is given.
pub fn client_input(alloc: Global, words: &[&str]) -> Result<ClientInput> {
    Ok(match words {
        ["hear", digits] => ClientInput::Feed(OctetList::from(octets(alloc, digits)?)),
        [
            "call",
            version,
            id,
            order,
            piece,
            flags,
            operation,
            ins @ ..,
        ] => ClientInput::Call {
            request: request(alloc, [version, id, flags, operation], ins)?,
            form: form(order, piece)?,
        },
        ["locate", version, id, order, piece] => ClientInput::Locate {
            request: locate_request(alloc, version, id)?,
            form: form(order, piece)?,
        },
        ["cancel", id, word] => ClientInput::Cancel {
            id: number(id)?,
            order: order(word)?,
        },
        ["send", id] => ClientInput::Send(number(id)?),
        ["take", id] => ClientInput::Take(number(id)?),
        ["close"] => ClientInput::Close,
        _ => bail!("a client does no such thing"),
    })
}
