//! Cutting the joined octets of a message into a first message and Fragments (9.4.9). The meaning
//! is specs/Cut.antt, and the law `cuts_are_undone` says that joining returns the octets.
ghost use Rattle.std.specs.Prelude.{◌≡◌, ◌↔◌, ◌+◌, ◌<◌, ◌≤◌, ◌^◌, ◌++◌, List, length, IfOk, IsTrue, OnOk};
ghost use Rattle.giop_msg.specs.declared.kind.Kind.TheVariants.{Fragment};
ghost use Rattle.giop_msg.specs.declared.msg.Msg.{Msg};
ghost use Rattle.giop_msg.specs.declared.version.Version.TheVariants.{V12};
ghost use Rattle.giop_msg.specs.Cut.{AreFragments, CanCut, IsCut, is_continued, message_of};

use crate::{Kind, Msg, Version};
use giop_cdr::{OctetList, Order};
use std::alloc::{AllocError, Global};

/// Whether joined octets of a message of this kind can be cut into messages of this piece's size.
/// The kind is Request, Reply, LocateRequest or LocateReply. The octets are 4 at least, which is a
/// request id's, and fewer than 2^32. The piece is a multiple of 8 and 24 at least. It takes no
/// memory.
pub fn can_cut(kind: Kind, joined: &[u8], piece: u32) -> bool
    ensures { IsTrue result ↔ CanCut kind joined.now piece }
{
    is_continued(kind)
        && joined.len() >= 4
        && joined.len() <= u32::MAX as usize
        && piece >= 24
        && piece % 8 == 0
}

// Whether Fragments may continue a message of the kind, which is no Fragment itself.
fn is_continued(kind: Kind) -> bool
    ensures { result ≡ is_continued kind }
{
    matches!(
        kind,
        Kind::Request | Kind::Reply | Kind::LocateRequest | Kind::LocateReply
    )
}

/// The messages that carry these joined octets: the first of the kind, and the Fragments that
/// follow it. Each Fragment begins with the request id, which in 1.2 is the first four of the
/// joined octets. Each message is `piece` octets long, its header counted, but the last, which is
/// 17 to `piece` octets long. There is one message where that is no longer than `piece`, and in 1.0
/// and 1.1 always.
///
/// The joined octets are as for `RequestHead::view`. `can_cut` is the test of the condition. The
/// limit that a framer has to have for them is `piece` less 12, or the number of octets for one
/// message.
pub fn cut(
    alloc: Global,
    version: Version,
    kind: Kind,
    order: Order,
    joined: &[u8],
    piece: u32,
) -> Result<Vec<Msg>, AllocError>
    requires { CanCut kind joined.now piece }
    ensures { IfOk result (λ messages. IsCut version kind order joined.now piece messages.items) }
{
    let piece = piece as usize;
    let mut messages = Vec::new(alloc);
    if !version.has_fragments() || joined.len() + 12 <= piece {
        messages.push(whole(alloc, version, kind, order, false, joined)?)?;
        return Ok(messages);
    }
    let (first, rest) = joined.split_at(piece - 12);
    messages.push(whole(alloc, version, kind, order, true, first)?)?;
    append_fragments(alloc, order, &joined[..4], rest, piece, &mut messages)?;
    Ok(messages)
}

// A message of this kind whose payload is these octets.
fn whole(
    alloc: Global,
    version: Version,
    kind: Kind,
    order: Order,
    more: bool,
    octets: &[u8],
) -> Result<Msg, AllocError>
    ensures { IfOk result (λ m. m ≡ message_of version kind order more octets.now) }
{
    Ok(Msg {
        version,
        order,
        more,
        kind,
        payload: OctetList::from_slice(alloc, octets)?,
    })
}

// A Fragment that continues the message of this id with these octets.
fn fragment(
    alloc: Global,
    order: Order,
    more: bool,
    id: &[u8],
    octets: &[u8],
) -> Result<Msg, AllocError>
    requires { length id.now + length octets.now < 2 ^ 33 }
    ensures { IfOk result (λ m. m ≡ message_of V12 Fragment order more (id.now ++ octets.now)) }
{
    let mut payload = Vec::with_capacity(alloc, id.len() + octets.len())?;
    payload.extend_from_slice(id)?;
    payload.extend_from_slice(octets)?;
    Ok(Msg {
        version: Version::V12,
        order,
        more,
        kind: Kind::Fragment,
        payload: OctetList::from(payload),
    })
}

// Appends the Fragments that continue a message with these octets. Out of memory, a part of them is
// left in the list.
fn append_fragments(
    alloc: Global,
    order: Order,
    id: &[u8],
    octets: &[u8],
    piece: usize,
    messages: &mut Vec<Msg>,
) -> Result<(), AllocError>
    requires id { length id.now ≡ 4 }
    requires some { 0 < length octets.now }
    requires short { length octets.now < 2 ^ 32 }
    requires large { 24 ≤ piece }
    ensures { OnOk result ((fragments : List Msg)
        × (messages.new.items ≡ messages.old.items ++ fragments)
        × AreFragments order id.now piece octets.now fragments) }
{
    let mut left = octets;
    while left.len() > piece - 16 {
        let (part, rest) = left.split_at(piece - 16);
        messages.push(fragment(alloc, order, true, id, part)?)?;
        left = rest;
    }
    messages.push(fragment(alloc, order, false, id, left)?)?;
    Ok(())
}
