//! A message of two pieces, gathered and read where it lies. giop_frag's CALLING.md shows it:
//! change both.
ghost use Rattle.std.specs.Prelude.{◌≡◌, OnOk};

use giop_cdr::{CdrIn, Order};
use giop_frag::{Gather, GatherFault};

/// The unsigned long at the front of a message of two pieces, if octets are there for one. The
/// pieces are dropped behind it. The refusals are those of `Gather::begin` and `Gather::add`.
pub fn front_of_two(
    gather: &mut Gather,
    id: u32,
    order: Order,
    first: &[u8],
    more: &[u8],
) -> Result<Option<u32>, GatherFault>
    ensures { OnOk result (gather.new.limit ≡ gather.old.limit) }
{
    if !gather.contains(id) {
        gather.begin(id, order, first)?;
    }
    gather.add(id, order, more)?;
    let mut front = None;
    if let Some((order, chain)) = gather.chain(id) {
        front = CdrIn::new(&chain, order, 12).read_ulong().ok();
    }
    gather.discard(id);
    Ok(front)
}
