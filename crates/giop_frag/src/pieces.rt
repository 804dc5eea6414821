ghost use Rattle.std.specs.Prelude.{◌≡◌, ◌++◌, Some, None, length, IfOk, IfErr, OnOk, OnErr};
ghost use Rattle.giop_ids.specs.Runs.{RefusedAs};
ghost use Rattle.giop_frag.specs.Gathered.{add_fault_by};

use crate::GatherFault;
use giop_cdr::{OctetList, Order};
use std::alloc::{AllocError, Global};
use std::marker::Model;

/// The octets of one message so far, in one list, and their byte order.
#[derive(Drop)]
pub struct Joined {
    order: Order,
    octets: OctetList,
}

impl Model for Joined {
    ghost use Rattle.giop_frag.specs.Gathered.{Pieces, pieces_code};

    ghost Value = { Pieces };

    ghost coded = { pieces_code };

    ghost view = { λ j. record { order = j.order; octets = j.octets } };
}

impl Joined {
    /// The first octets.
    pub fn new(alloc: Global, order: Order, octets: &[u8]) -> Result<Joined, AllocError>
        ensures { IfOk result (λ joined. joined ≡ record { order = order; octets = octets.now }) }
    {
        Ok(Joined {
            order,
            octets: OctetList::from_slice(alloc, octets)?,
        })
    }

    /// Appends octets, where they come in the same order and `over` says that there is room; gives
    /// how many there were.
    pub fn append(&mut self, over: bool, order: Order, octets: &[u8]) -> Result<usize, GatherFault>
        ensures value { IfOk result (λ before. before ≡ length self.old.octets) }
        ensures ok { OnOk result
            (self.new ≡ record self.old { octets = self.old.octets ++ octets.now }) }
        ensures only { OnOk result (add_fault_by over (Some self.old) order ≡ None) }
        ensures err { IfErr result (λ fault. RefusedAs GatherFault.NoMemory fault
            (add_fault_by over (Some self.old) order)) }
        ensures kept { OnErr result (self.new ≡ self.old) }
    {
        if order != self.order {
            return Err(GatherFault::OrderDiffers);
        }
        if over {
            return Err(GatherFault::GatherFull);
        }
        let before = self.octets.len();
        self.octets.extend_from_slice(octets)?;
        Ok(before)
    }

    /// Their byte order.
    pub fn order(&self) -> Order
        ensures { result ≡ self.now.order }
    {
        self.order
    }

    /// All of them, as one slice.
    pub fn octets(&self) -> &[u8]
        ensures { result.now ≡ self.now.octets }
    {
        self.octets.as_slice()
    }

    /// How many there are.
    pub fn len(&self) -> usize
        ensures { result ≡ length self.now.octets }
    {
        self.octets.len()
    }

    /// Their byte order and the list of them, without memory.
    pub fn into_parts(self) -> (Order, OctetList)
        ensures { result ≡ (self.order, self.octets) }
    {
        (self.order, self.octets)
    }
}
