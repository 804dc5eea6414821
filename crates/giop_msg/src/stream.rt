//! A whole stream that comes in pieces, read by a framer at once. Its split doesn't depend on the
//! pieces, by the law `one_split`.
ghost use Rattle.std.specs.Prelude.{◌≡◌, ◌↔◌, Some, IfOk, IfErr};
ghost use Rattle.std.specs.List.{flat_map};
ghost use Rattle.giop_msg.specs.declared.fault.WireFault.{WireFault};
ghost use Rattle.giop_msg.specs.declared.fault.WireKind.TheVariants.{NoMemory};
ghost use Rattle.giop_msg.specs.Fault.{fault};
ghost use Rattle.giop_msg.specs.Stream.{AppendsTaken, BeginsWithFault, IsStopped, Msgs};

use crate::{Framer, Msg, WireFault, WireKind};
use std::alloc::Global;

/// What a stream has: its messages, then a fault or a part of a message.
#[derive(Debug, Drop)]
pub struct StreamRead {
    /// Its messages, in order.
    pub messages: Vec<Msg>,
    /// What is wrong with the octets after these, if anything is.
    pub fault: Option<WireFault>,
    /// The framer, which holds the octets after the messages.
    pub framer: Framer,
}

/// Reads a stream that comes in these pieces: whatever the pieces, the split is the one that the
/// stream has.
///
/// The only fault that it returns is `NoMemory`, at 0.
pub fn read_pieces(
    alloc: Global,
    message_limit: u32,
    pieces: &[&[u8]],
) -> Result<StreamRead, WireFault>
    ensures split { IfOk result (λ r. Msgs message_limit (flat_map (λ p. p.now) pieces.now)
        r.messages.items r.framer.octets) }
    ensures fault { IfOk result (λ r. (e : WireFault) →
        (r.fault ≡ Some e) ↔ BeginsWithFault message_limit r.framer.octets e) }
    ensures err { IfErr result (λ e. e ≡ fault 0 NoMemory) }
{
    let mut framer = Framer::new(alloc, message_limit);
    let mut messages = Vec::new(alloc);
    let mut fault = None;
    for piece in pieces {
        framer.feed(piece)?;
        fault = take_up_to_fault(&mut framer, &mut messages)?;
    }
    Ok(StreamRead {
        messages,
        fault,
        framer,
    })
}

// Takes all messages off the front, and returns the fault that is behind them, if there is one.
fn take_up_to_fault(
    framer: &mut Framer,
    messages: &mut Vec<Msg>,
) -> Result<Option<WireFault>, WireFault>
    ensures found { AppendsTaken framer.old messages.old.items framer.new messages.new.items }
    ensures ok { IfOk result (IsStopped framer.new) }
    ensures err { IfErr result (λ e. e ≡ fault 0 NoMemory) }
{
    match framer.take_messages(messages) {
        Ok(()) => Ok(None),
        Err(e) if e.kind == WireKind::NoMemory => Err(e),
        Err(e) => Ok(Some(e)),
    }
}
