//! Blocks: how many there are, and what is read across their ends.
use crate::{Gather, GatherFault};
use giop_cdr::{CdrIn, CdrOut, Octets, Order, SliceOctets};
use std::alloc::Global;
use std::process::Abort;
use std::test::Fail;

// 512, 1, 600 and 1,024 octets under three ids: a list takes a block for each 512 that are begun,
// and one that is taken out leaves its blocks to the lists to come.
#[test]
fn blocks_are_used_again(rt: HostRuntime) -> Result<(), Fail> {
    let mut gather = Gather::new(rt.alloc(), 10_000);
    assert_eq!(rt; gather.blocks(), 0);
    assert!(rt; !gather.contains(1));
    assert_eq!(rt; gather.begin(1, Order::Big, &[1; 512]), Ok(()));
    assert_eq!(rt; gather.blocks(), 1);
    assert_eq!(rt; gather.add(1, Order::Big, &[2]), Ok(()));
    assert_eq!(rt; gather.blocks(), 2);
    assert!(rt; !gather.contains(2));
    assert_eq!(rt; gather.begin(2, Order::Big, &[3; 600]), Ok(()));
    assert_eq!(rt; gather.blocks(), 4);
    gather.discard(1);
    assert_eq!(rt; gather.blocks(), 4);
    assert_eq!(rt; gather.total(), 600);
    assert!(rt; !gather.contains(3));
    assert_eq!(rt; gather.begin(3, Order::Little, &[4; 1024]), Ok(()));
    assert_eq!(rt; gather.blocks(), 4);
    let (order, octets) = gather.finish(2)?;
    assert_eq!(rt; order, Order::Big);
    assert!(rt; octets.as_slice() == [3; 600].as_slice());
    assert_eq!(rt; gather.blocks(), 4);
    assert_eq!(rt; gather.total(), 1024);
    Ok(())
}

// Gathers these octets under id 7, in pieces of one size.
fn gathered(rt: &impl Abort, alloc: Global, order: Order, octets: &[u8], size: usize) -> Gather {
    let mut gather = Gather::new(alloc, 100_000);
    for piece in octets.chunks(size) {
        let done = if gather.contains(7) {
            gather.add(7, order, piece)
        } else {
            gather.begin(7, order, piece)
        };
        assert_eq!(rt; done, Ok(()));
    }
    gather
}

// 510 octets, a string of 600 whose length stands at 512, octets, and a long long.
fn message(alloc: Global, order: Order, start: usize) -> Result<CdrOut, Fail> {
    let mut out = CdrOut::new(alloc, order, start);
    for i in 0..510u32 {
        out.write_octet((i % 251) as u8)?;
    }
    out.write_string(&[b'x'; 600])?;
    out.write_octets(&[0xAB; 700])?;
    out.write_longlong(-2)?;
    Ok(out)
}

// What is read of it: whether each value is the one that was written.
fn is_message<S: Octets>(
    alloc: Global,
    source: &S,
    order: Order,
    start: usize,
) -> Result<bool, Fail> {
    let mut input = CdrIn::new(source, order, start);
    let mut same = true;
    for i in 0..510u32 {
        same = same && input.read_octet()? == (i % 251) as u8;
    }
    let text = input.read_string(alloc, 0)?;
    let octets = input.read_octets(alloc, 0)?;
    let number = input.read_longlong()?;
    Ok(
        same && text.as_slice() == [b'x'; 600].as_slice()
            && octets.as_slice() == [0xAB; 700].as_slice()
            && number == -2
            && input.remaining() == 0,
    )
}

// In both orders, from several offsets and cut in pieces of every size, a chain is read as a slice.
#[test]
fn a_chain_is_read_as_a_slice(rt: HostRuntime) -> Result<(), Fail> {
    let alloc = rt.alloc();
    for order in [Order::Big, Order::Little] {
        for start in [0, 2, 12] {
            let out = message(alloc, order, start)?;
            let slice = SliceOctets::new(out.as_slice());
            assert!(rt; is_message(alloc, &slice, order, start)?);
            for size in [1, 24, 32, 40, 48, 56, 64, 511, 512, 513, 4096] {
                let gather = gathered(&rt, alloc, order, out.as_slice(), size);
                let Some((came, chain)) = gather.chain(7) else {
                    return Err(Fail::from(GatherFault::Stray));
                };
                assert_eq!(rt; came, order);
                assert_eq!(rt; chain.len(), out.as_slice().len());
                assert!(rt; is_message(alloc, &chain, order, start)?);
            }
        }
    }
    Ok(())
}

// A number that lies across the end of a block.
#[test]
fn a_long_long_lies_in_two_blocks(rt: HostRuntime) -> Result<(), Fail> {
    let alloc = rt.alloc();
    let mut octets = vec![in alloc; 0u8; 508]?;
    octets.extend_from_slice(&[1, 2, 3, 4, 5, 6, 7, 8])?;
    let gather = gathered(&rt, alloc, Order::Big, &octets, 24);
    let Some((_, chain)) = gather.chain(7) else {
        return Err(Fail::from(GatherFault::Stray));
    };
    assert_eq!(rt; chain.run(508).len(), 4);
    let mut input = CdrIn::new(&chain, Order::Big, 12);
    for _ in 0..508 {
        assert_eq!(rt; input.read_octet()?, 0);
    }
    assert_eq!(rt; input.position(), 520);
    assert_eq!(rt; input.read_longlong()?, 0x0102_0304_0506_0708);
    Ok(())
}

// A refusal is told by its number and its name, and what is gathered by its counts.
#[test]
fn refusals_and_counts_are_told(rt: HostRuntime) -> Result<(), Fail> {
    let alloc = rt.alloc();
    let cases: [(GatherFault, u8, &str); 4] = [
        (GatherFault::Stray, 1, "Stray"),
        (GatherFault::OrderDiffers, 2, "OrderDiffers"),
        (GatherFault::GatherFull, 3, "GatherFull"),
        (GatherFault::NoMemory, 4, "NoMemory"),
    ];
    for (fault, number, name) in cases {
        assert_eq!(rt; fault.number(), number);
        let told = format!(in alloc; "{fault}")?;
        assert!(rt; told.as_bytes() == name.as_bytes());
    }
    let gather = gathered(&rt, alloc, Order::Big, &[5; 700], 512);
    let told = format!(in alloc; "{gather:?}")?;
    let want = "Gather { limit: 100000, total: 700, ids: 1, blocks: 2 }";
    assert!(rt; told.as_bytes() == want.as_bytes());
    Ok(())
}
