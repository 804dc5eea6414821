//! The octets of a stream that aren't taken, in one list. Messages are copied out of its front.
ghost use Rattle.std.specs.Prelude.{◌≡◌, ◌+◌, ◌++◌, ◌<◌, ◌^◌, [], drop, length, IfOk, IfErr, IfSome, IfNone, OnOk, OnErr};
ghost use Rattle.giop_msg.specs.declared.fault.WireFault.{WireFault};
ghost use Rattle.giop_msg.specs.declared.fault.WireKind.TheVariants.{NoMemory};
ghost use Rattle.giop_msg.specs.Fault.{fault};
ghost use Rattle.giop_msg.specs.Msg.{IsMessage, message_octets};
ghost use Rattle.giop_msg.specs.Stream.{BeginsWithFault, IsRefusal, Waits};

use super::begun::Begun;
use super::spare::Spare;
use crate::{Header, Msg, WireFault};
use bytes::BytesMut;
use giop_cdr::OctetList;
use std::alloc::Global;
use std::marker::Model;

/// Octets of a stream. Contracts see them and the greatest message size.
#[derive(Debug, Drop)]
pub struct Buffer {
    limit: u32,
    octets: BytesMut,
    spare: Spare,
}

impl Model for Buffer {
    ghost use Rattle.giop_msg.specs.Stream.{Unread};

    ghost Value = { Unread };

    ghost view = { λ b. record { limit = b.limit; octets = b.octets.items } };
}

impl Buffer {
    ghost use Rattle.giop_msg.specs.Framing.{CanStand, TakesFirst, with_begun};
    ghost use Rattle.giop_msg.specs.Stream.{AppendsTaken, TakesMessage};

    /// No octets. It takes no memory.
    pub fn new(alloc: Global, message_limit: u32) -> Buffer
        ensures { result ≡ record { limit = message_limit; octets = [] } }
    {
        Buffer {
            limit: message_limit,
            octets: BytesMut::new(alloc),
            spare: Spare::new(alloc),
        }
    }

    /// Appends octets.
    #[inline(always)]
    pub fn append(&mut self, octets: &[u8]) -> Result<(), WireFault>
        ensures ok { OnOk result (self.new
            ≡ record self.old { octets = self.old.octets ++ octets.now }) }
        ensures err { IfErr result (λ e. e ≡ fault 0 NoMemory) }
        ensures kept { OnErr result (self.new ≡ self.old) }
    {
        self.octets.extend_from_slice(octets)?;
        Ok(())
    }

    /// Appends octets. Where they are the first, and begin a large message whose end isn't there,
    /// they are returned as such.
    #[inline(always)]
    pub fn feed(&mut self, octets: &[u8]) -> Result<Option<Begun>, WireFault>
        ensures ok { IfOk result (λ begun. with_begun begun self.new
            ≡ record self.old { octets = self.old.octets ++ octets.now }) }
        ensures stands { IfOk result (λ begun. CanStand begun self.new) }
        ensures err { IfErr result (λ e. e ≡ fault 0 NoMemory) }
        ensures kept { OnErr result (self.new ≡ self.old) }
    {
        let begun = match self.octets.is_empty() {
            true => Begun::begin(&mut self.spare, octets, self.limit)?,
            false => None,
        };
        if begun.is_none() {
            self.append(octets)?;
        }
        Ok(begun)
    }

    /// Takes a large message out, whose end isn't there.
    #[inline(always)]
    pub fn take_begun(&mut self) -> Result<Option<Begun>, WireFault>
        ensures ok { IfOk result (λ begun. with_begun begun self.new ≡ self.old) }
        ensures stands { IfOk result (λ begun. CanStand begun self.new) }
        ensures err { IfErr result (λ e. e ≡ fault 0 NoMemory) }
        ensures kept { OnErr result (self.new ≡ self.old) }
    {
        let begun = Begun::begin(&mut self.spare, self.octets.as_slice(), self.limit)?;
        if begun.is_some() {
            self.octets.clear();
        }
        Ok(begun)
    }

    /// The number of octets.
    #[inline(always)]
    pub fn len(&self) -> usize
        ensures value { result ≡ length self.now.octets }
        ensures bound { result < 2 ^ 63 }
    {
        self.octets.len()
    }

    /// Takes the first message off, as `Framer::next` does.
    #[inline(always)]
    pub fn next(&mut self) -> Result<Option<Msg>, WireFault>
        ensures { TakesFirst self.old result self.new }
    {
        let found = first_message(&mut self.spare, self.octets.as_slice(), self.limit)?;
        if let Some(message) = &found {
            self.pass(message);
        }
        Ok(found)
    }

    /// Takes all messages off the front, as `Framer::take_messages` does.
    pub fn take_messages(&mut self, messages: &mut Vec<Msg>) -> Result<(), WireFault>
        ensures found { AppendsTaken self.old messages.old.items self.new messages.new.items }
        ensures ok { OnOk result (Waits self.new) }
        ensures err { IfErr result (IsRefusal self.new) }
    {
        loop {
            let octets = self.octets.as_slice();
            let found = first_message(&mut self.spare, octets, self.limit)?;
            let Some(message) = found else {
                return Ok(());
            };
            messages.reserve(1)?;
            self.pass(&message);
            messages.push(message).unwrap();
        }
    }

    /// Keeps the memory of a message that is no longer needed for a later one.
    #[inline(always)]
    pub fn reuse(&mut self, message: Msg)
        ensures { self.new ≡ self.old }
    {
        self.spare.keep(message.payload.into_vec());
    }

    // Takes the message that is at the front off.
    fn pass(&mut self, message: &Msg)
        requires { IsMessage self.old.limit message.now
            × (self.old.octets ≡ message_octets message.now
            ++ drop (12 + length message.now.payload) self.old.octets) }
        ensures { TakesMessage self.old message.now self.new }
    {
        self.octets.advance(12 + message.payload.len());
        // So that the octets to come have all of its memory.
        if self.octets.is_empty() {
            self.octets.clear();
        }
    }
}

// The message at the front of the octets, its payload copied.
fn first_message(spare: &mut Spare, octets: &[u8], limit: u32) -> Result<Option<Msg>, WireFault>
    ensures found { IfOk result (λ o. IfSome o (λ m. IsMessage limit m
        × (octets.now ≡ message_octets m ++ drop (12 + length m.payload) octets.now))) }
    ensures waits { IfOk result (λ o. IfNone o
        (Waits (record { limit = limit; octets = octets.now }))) }
    ensures exact { (e : WireFault) → BeginsWithFault limit octets.now e → result ≡ Err e }
    ensures err { IfErr result (IsRefusal (record { limit = limit; octets = octets.now })) }
{
    let Some(head) = octets.first_chunk::<12>() else {
        return Ok(None);
    };
    let header = Header::judge(head, limit)?;
    let end = 12 + header.size as usize;
    let Some(payload) = octets.get(12..end) else {
        return Ok(None);
    };
    Ok(Some(Msg {
        version: header.version,
        order: header.order,
        more: header.more,
        kind: header.kind,
        payload: OctetList::from(spare.copied(payload)?),
    }))
}
