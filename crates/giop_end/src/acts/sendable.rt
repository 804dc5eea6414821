//! The messages that an end sends joined octets in: one, or one and its Fragments (CORBA 3.3 Part
//! 2, 9.4.9), within the limits of the end. Which octets are sent is `is_sendable` in
//! specs/Acts/Form.antt: change both.
ghost use Rattle.std.specs.Prelude.{◌≡◌, ◌<◌, ◌≤◌, ◌^◌, [], ◌∷◌, false, true, length, IfNone, IfOk, IfSome};
ghost use Rattle.giop_msg.specs.Cut.{IsCut, is_continued, message_of};
ghost use Rattle.giop_end.specs.Acts.Form.{is_fragmented, is_sendable, largest, IsForm};

use crate::acts::form::Form;
use crate::limits::Limits;
use giop_cdr::{OctetList, Order};
use giop_msg::{Kind, Msg, Version, cut};
use giop_table::Messages;
use std::alloc::{AllocError, Global};

/// The messages of a kind that joined octets are sent in, within the limits of an end. `None` where
/// the end doesn't send them: they are fewer than 4 or not fewer than 2^32, they are more than it
/// gathers itself, or one of the messages is larger than it takes itself. AllocError where it is
/// out of memory.
#[tactic(auto, using(crate::proofs::OnActs::CutLemmas::cut_sized, crate::proofs::OnActs::CutLemmas::cut_few))]
#[inline(always)]
pub fn messages(
    alloc: Global,
    limits: Limits,
    version: Version,
    kind: Kind,
    form: Form,
    joined: Vec<u8>,
) -> Result<Option<Messages>, AllocError>
    requires kind { is_continued kind ≡ true }
    requires form { IsForm form }
    ensures sendable { IfOk result (λ found. IfSome found (λ messages.
        is_sendable limits.gathered limits.message version (length joined.items) form.piece
        ≡ true)) }
    ensures cut { IfOk result (λ found. IfSome found (λ messages.
        IsCut version kind form.order joined.items form.piece messages)) }
    ensures few { IfOk result (λ found. IfSome found (λ messages. length messages < 2 ^ 32)) }
    ensures none { IfOk result (λ found. IfNone found
        (is_sendable limits.gathered limits.message version (length joined.items) form.piece
        ≡ false)) }
{
    if !is_sendable(limits, version, &joined, form.piece) {
        return Ok(None);
    }
    if is_fragmented(version, joined.len(), form.piece) {
        let messages = cut(alloc, version, kind, form.order, &joined, form.piece)?;
        return Ok(Some(Messages::of(messages)));
    }
    let payload = OctetList::from(joined);
    Ok(Some(one_message(alloc, version, kind, form.order, payload)))
}

/// The message of this payload, to be sent alone. It takes no memory.
#[inline(always)]
pub fn one_message(
    alloc: Global,
    version: Version,
    kind: Kind,
    order: Order,
    payload: OctetList,
) -> Messages
    requires { length payload < 2 ^ 32 }
    ensures { result ≡ message_of version kind order false payload ∷ [] }
{
    let message = Msg {
        version,
        order,
        more: false,
        kind,
        payload,
    };
    Messages::one(alloc, message)
}

fn is_sendable(limits: Limits, version: Version, joined: &[u8], piece: u32) -> bool
    requires { 24 ≤ piece }
    ensures value { result ≡ is_sendable limits.gathered limits.message version
        (length joined.now) piece }
    ensures long { result ≡ true → 4 ≤ length joined.now }
    ensures short { result ≡ true → length joined.now < 2 ^ 32 }
{
    let n = joined.len();
    n >= 4
        && n < 1 << 32
        && n as u64 <= limits.gathered
        && largest(version, n, piece) <= limits.message as usize
}

// The message_size of the largest message that so many joined octets are sent in, in octets.
fn largest(version: Version, n: usize, piece: u32) -> usize
    requires large { 24 ≤ piece }
    requires short { n < 2 ^ 32 }
    ensures { result ≡ largest version n piece }
{
    if is_fragmented(version, n, piece) {
        piece as usize - 12
    } else {
        n
    }
}

// Whether so many joined octets are sent in several messages.
fn is_fragmented(version: Version, n: usize, piece: u32) -> bool
    requires { n < 2 ^ 32 }
    ensures { result ≡ is_fragmented version n piece }
{
    version.has_fragments() && (piece as usize) < n + 12
}
