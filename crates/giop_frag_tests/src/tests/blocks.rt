//! Blocks: how many there are, and how refusals and counts are told.
use giop_cdr::Order;
use giop_frag::{Gather, GatherFault};
use std::test::Fail;

// Begins, or adds where the id has been begun.
fn put(gather: &mut Gather, id: u32, order: Order, octets: &[u8]) -> Result<(), GatherFault> {
    if gather.contains(id) {
        return gather.add(id, order, octets);
    }
    gather.begin(id, order, octets)
}

// 512, 1, 600 and 1,024 octets under three ids: a list takes a block for each 512 that are begun,
// and one that is taken out leaves its blocks to the lists to come.
#[test]
fn blocks_are_used_again(rt: HostRuntime) -> Result<(), Fail> {
    let mut gather = Gather::new(rt.alloc(), 10_000);
    assert_eq!(rt; gather.blocks(), 0);
    assert_eq!(rt; put(&mut gather, 1, Order::Big, &[1; 512]), Ok(()));
    assert_eq!(rt; gather.blocks(), 1);
    assert_eq!(rt; put(&mut gather, 1, Order::Big, &[2]), Ok(()));
    assert_eq!(rt; gather.blocks(), 2);
    assert_eq!(rt; put(&mut gather, 2, Order::Big, &[3; 600]), Ok(()));
    assert_eq!(rt; gather.blocks(), 4);
    gather.discard(1);
    assert_eq!(rt; gather.blocks(), 4);
    assert_eq!(rt; gather.total(), 600);
    assert_eq!(rt; put(&mut gather, 3, Order::Little, &[4; 1024]), Ok(()));
    assert_eq!(rt; gather.blocks(), 4);
    let (order, octets) = gather.finish(2)?;
    assert_eq!(rt; order, Order::Big);
    assert!(rt; octets.as_slice() == [3; 600].as_slice());
    assert_eq!(rt; gather.blocks(), 4);
    assert_eq!(rt; gather.total(), 1024);
    Ok(())
}

// A refusal is told by its number and its name, and what is gathered by its counts.
#[test]
fn refusals_and_counts_are_told(rt: HostRuntime) -> Result<(), Fail> {
    let alloc = rt.alloc();
    let cases: [(GatherFault, u8, &str); 4] = [
        (GatherFault::Stray, 1, "Stray"),
        (GatherFault::OrderDiffers, 2, "OrderDiffers"),
        (GatherFault::GatherFull, 3, "GatherFull"),
        (GatherFault::NoMemory, 4, "NoMemory"),
    ];
    for (fault, number, name) in cases {
        assert_eq!(rt; fault.number(), number);
        let told = format!(in alloc; "{fault}")?;
        assert!(rt; told.as_bytes() == name.as_bytes());
    }
    let mut gather = Gather::new(alloc, 100_000);
    assert_eq!(rt; put(&mut gather, 7, Order::Big, &[5; 700]), Ok(()));
    let told = format!(in alloc; "{gather:?}")?;
    let want = "Gather { limit: 100000, total: 700, ids: 1, blocks: 2 }";
    assert!(rt; told.as_bytes() == want.as_bytes());
    Ok(())
}
