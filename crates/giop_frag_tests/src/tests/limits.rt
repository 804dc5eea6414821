//! With ample memory no call tells want of it, up to the default limit of octets.
use giop_cdr::{Octets, Order};
use giop_frag::{Gather, GatherFault};
use std::process::Abort;
use std::test::Fail;

const LIMIT: usize = 8_388_608;

// Begins, or adds where the id has been begun.
fn put(gather: &mut Gather, id: u32, octets: &[u8]) -> Result<(), GatherFault> {
    if gather.contains(id) {
        return gather.add(id, Order::Big, octets);
    }
    gather.begin(id, Order::Big, octets)
}

// Gathers these octets under the id, in pieces.
fn fill(rt: &impl Abort, gather: &mut Gather, id: u32, octets: &[u8]) {
    for piece in octets.chunks(4096) {
        assert_eq!(rt; put(gather, id, piece), Ok(()));
    }
}

// These octets are gathered under the id, and handed out.
fn assert_has(
    rt: &impl Abort,
    gather: &mut Gather,
    id: u32,
    octets: &[u8],
) -> Result<(), GatherFault> {
    match gather.chain(id) {
        Some((_, chain)) => assert_eq!(rt; chain.len(), octets.len()),
        None => assert!(rt; octets.is_empty()),
    }
    let (order, list) = gather.finish(id)?;
    assert_eq!(rt; order, Order::Big);
    assert!(rt; list.as_slice() == octets);
    Ok(())
}

#[test]
fn one_list_holds_all_octets_of_the_limit(rt: HostRuntime) -> Result<(), Fail> {
    let alloc = rt.alloc();
    let all = vec![in alloc; 7u8; LIMIT]?;
    let mut gather = Gather::new(alloc, LIMIT);
    fill(&rt, &mut gather, 1, &all);
    assert_eq!(rt; gather.total(), LIMIT);
    assert_eq!(rt; gather.blocks(), 16_384);
    assert_eq!(rt; put(&mut gather, 1, &[1]), Err(GatherFault::GatherFull));
    assert_eq!(rt; put(&mut gather, 2, &[1]), Err(GatherFault::GatherFull));
    assert_has(&rt, &mut gather, 1, &all)?;
    assert_eq!(rt; gather.total(), 0);
    Ok(())
}

#[test]
fn one_piece_holds_all_octets_of_the_limit(rt: HostRuntime) -> Result<(), Fail> {
    let alloc = rt.alloc();
    let all = vec![in alloc; 7u8; LIMIT]?;
    let mut gather = Gather::new(alloc, LIMIT);
    assert_eq!(rt; put(&mut gather, 1, &all), Ok(()));
    assert_eq!(rt; gather.total(), LIMIT);
    gather.discard(1);
    assert_eq!(rt; put(&mut gather, 1, &[]), Ok(()));
    assert_eq!(rt; put(&mut gather, 1, &all), Ok(()));
    assert_eq!(rt; gather.blocks(), 16_384);
    assert_has(&rt, &mut gather, 1, &all)?;
    Ok(())
}

// 1,000 lists of 8,388 octets, and one of the 608 that are left.
#[test]
fn a_thousand_lists_hold_all_octets_of_the_limit(rt: HostRuntime) -> Result<(), Fail> {
    let alloc = rt.alloc();
    let list = vec![in alloc; 7u8; 8_388]?;
    let rest = vec![in alloc; 9u8; 608]?;
    let mut gather = Gather::new(alloc, LIMIT);
    for id in 0..1000u32 {
        fill(&rt, &mut gather, id, &list);
    }
    fill(&rt, &mut gather, 1000, &rest);
    assert_eq!(rt; gather.total(), LIMIT);
    assert_eq!(rt; gather.len(), 1001);
    assert_eq!(rt; gather.blocks(), 17_002);
    for id in 0..1000u32 {
        assert_has(&rt, &mut gather, id, &list)?;
    }
    assert_has(&rt, &mut gather, 1000, &rest)?;
    assert!(rt; gather.is_empty());
    Ok(())
}

// The number of blocks, by octets of one list: each 512 that are begun take one.
#[test]
fn blocks_are_octets_over_512_rounded_up(rt: HostRuntime) -> Result<(), Fail> {
    let alloc = rt.alloc();
    let cases: [(usize, usize); 7] = [
        (0, 0),
        (1, 1),
        (511, 1),
        (512, 1),
        (513, 2),
        (1024, 2),
        (1025, 3),
    ];
    for (octets, blocks) in cases {
        let list = vec![in alloc; 7u8; octets]?;
        let mut gather = Gather::new(alloc, 2000);
        assert_eq!(rt; put(&mut gather, 1, &list), Ok(()));
        assert_eq!(rt; gather.blocks(), blocks);
    }
    Ok(())
}

// Each list has blocks of its own, and the blocks of one that goes serve the others; what is
// refused leaves their number.
#[test]
fn blocks_stay_for_the_lists_to_come(rt: HostRuntime) -> Result<(), Fail> {
    let mut gather = Gather::new(rt.alloc(), 2000);
    assert_eq!(rt; put(&mut gather, 1, &[1; 600]), Ok(()));
    assert_eq!(rt; put(&mut gather, 2, &[2; 100]), Ok(()));
    assert_eq!(rt; gather.blocks(), 3);
    gather.discard(1);
    assert_eq!(rt; gather.blocks(), 3);
    assert_eq!(rt; put(&mut gather, 2, &[2; 1000]), Ok(()));
    assert_eq!(rt; gather.blocks(), 3);
    assert_eq!(rt;
        put(&mut gather, 2, &[2; 1000]),
        Err(GatherFault::GatherFull)
    );
    assert_eq!(rt; gather.add(3, Order::Big, &[3]), Err(GatherFault::Stray));
    assert_eq!(rt;
        gather.add(2, Order::Little, &[2]),
        Err(GatherFault::OrderDiffers)
    );
    assert_eq!(rt; gather.blocks(), 3);
    assert_eq!(rt; put(&mut gather, 3, &[3]), Ok(()));
    assert_eq!(rt; gather.blocks(), 4);
    Ok(())
}
