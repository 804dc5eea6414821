//! The messages that an end sends.
ghost use Rattle.std.specs.Prelude.{◌≡◌, ◌<◌, ◌≤◌, ◌^◌, false, true, length, IfNone, IfOk, IfSome};
ghost use Rattle.giop_msg.specs.Cut.{IsCut, is_continued};
ghost use Rattle.giop_session.specs.Form.{is_sendable, largest, IsForm};

use crate::form::Form;
use crate::limits::Limits;
use crate::unsent::Unsent;
use giop_msg::{Kind, Version, cut};
use std::alloc::{AllocError, Global};

/// The messages of a kind that joined octets are sent in, within the limits of an end. `None` where
/// the end doesn't send them: they are more than it gathers itself, or one of the messages is larger
/// than it takes itself.
#[tactic(auto, using(crate::proofs::CutLemmas::cut_sized, crate::proofs::CutLemmas::cut_few))]
pub fn messages(
    alloc: Global,
    limits: Limits,
    version: Version,
    kind: Kind,
    form: Form,
    joined: &[u8],
) -> Result<Option<Unsent>, AllocError>
    requires kind { is_continued kind ≡ true }
    requires form { IsForm form }
    ensures sendable { IfOk result (λ found. IfSome found (λ messages.
        is_sendable limits.gathered limits.message version (length joined.now) form.piece
        ≡ true)) }
    ensures cut { IfOk result (λ found. IfSome found (λ messages.
        IsCut version kind form.order joined.now form.piece messages)) }
    ensures few { IfOk result (λ found. IfSome found (λ messages. length messages < 2 ^ 32)) }
    ensures none { IfOk result (λ found. IfNone found
        (is_sendable limits.gathered limits.message version (length joined.now) form.piece
        ≡ false)) }
{
    if !is_sendable(limits, version, joined, form.piece) {
        return Ok(None);
    }
    let messages = cut(alloc, version, kind, form.order, joined, form.piece)?;
    Ok(Some(Unsent::of(messages)))
}

fn is_sendable(limits: Limits, version: Version, joined: &[u8], piece: u32) -> bool
    requires { 24 ≤ piece }
    ensures value { result ≡ is_sendable limits.gathered limits.message version
        (length joined.now) piece }
    ensures long { result ≡ true → 4 ≤ length joined.now }
    ensures short { result ≡ true → length joined.now < 2 ^ 32 }
{
    let n = joined.len();
    n >= 4
        && n < 1 << 32
        && n as u64 <= limits.gathered
        && largest(version, n, piece) <= limits.message as usize
}

// The message_size of the largest message that so many joined octets are sent in.
fn largest(version: Version, n: usize, piece: u32) -> usize
    requires large { 24 ≤ piece }
    requires short { n < 2 ^ 32 }
    ensures { result ≡ largest version n piece }
{
    let piece = piece as usize;
    if version.has_fragments() && piece < n + 12 {
        piece - 12
    } else {
        n
    }
}
