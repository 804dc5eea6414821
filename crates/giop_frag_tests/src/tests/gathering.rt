use giop_cdr::{Octets, Order};
use giop_frag::{Chain, Gather, GatherFault};
use std::process::Abort;
use std::test::Fail;

const TWELVE: [u8; 12] = [1, 2, 3, 4, 5, 6, 7, 8, 9, 10, 11, 12];

const EIGHT: [u8; 8] = [21, 22, 23, 24, 25, 26, 27, 28];

// Whether the chain holds just these octets, read one by one and by runs.
fn holds(chain: &Chain<'_>, octets: &[u8]) -> bool {
    if chain.len() != octets.len() {
        return false;
    }
    for i in 0..chain.len() {
        let part = chain.run(i);
        if i < octets.len() && (chain.at(i) != octets[i] || part[0] != octets[i]) {
            return false;
        }
    }
    true
}

fn has(gather: &Gather, id: u32, order: Order, octets: &[u8]) -> bool {
    match gather.chain(id) {
        Some((came, chain)) => came == order && holds(&chain, octets),
        None => false,
    }
}

// What stands in a gatherer that is full of id 1 and id 2.
fn assert_full(rt: &impl Abort, gather: &Gather) {
    assert!(rt; has(gather, 1, Order::Big, &TWELVE));
    assert!(rt; has(gather, 2, Order::Little, &EIGHT));
    assert_eq!(rt; gather.total(), 20);
    assert_eq!(rt; gather.len(), 2);
}

#[test]
fn a_refusal_has_its_place_and_changes_nothing(rt: HostRuntime) -> Result<(), Fail> {
    let mut gather = Gather::new(rt.alloc(), 20);
    assert!(rt; gather.is_empty());
    assert_eq!(rt; gather.limit(), 20);
    assert!(rt; !gather.contains(1));
    assert_eq!(rt; gather.begin(1, Order::Big, &TWELVE), Ok(()));
    assert!(rt; !gather.contains(2));
    assert_eq!(rt; gather.begin(2, Order::Little, &EIGHT), Ok(()));
    assert_full(&rt, &gather);

    // A stray piece is told first, then the other order, then the limit.
    assert_eq!(rt; gather.add(3, Order::Big, &[1]), Err(GatherFault::Stray));
    assert_eq!(rt;
        gather.add(2, Order::Big, &[1]),
        Err(GatherFault::OrderDiffers)
    );
    assert_eq!(rt;
        gather.add(1, Order::Big, &[1]),
        Err(GatherFault::GatherFull)
    );
    assert!(rt; !gather.contains(3));
    assert_eq!(rt;
        gather.begin(3, Order::Big, &[1]),
        Err(GatherFault::GatherFull)
    );
    assert_full(&rt, &gather);

    let (order, octets) = gather.finish(2)?;
    assert_eq!(rt; order, Order::Little);
    assert_eq!(rt; octets.as_slice(), EIGHT.as_slice());
    assert_eq!(rt; gather.total(), 12);
    assert_eq!(rt; gather.add(1, Order::Big, &[13]), Ok(()));
    assert_eq!(rt; gather.total(), 13);

    gather.discard(2);
    assert!(rt; gather.finish(2).err() == Some(GatherFault::Stray));
    assert!(rt; gather.chain(2).is_none());
    assert!(rt;
        has(
            &gather,
            1,
            Order::Big,
            &[1, 2, 3, 4, 5, 6, 7, 8, 9, 10, 11, 12, 13]
        )
    );
    assert_eq!(rt; gather.total(), 13);
    gather.discard(1);
    assert!(rt; gather.is_empty());
    assert_eq!(rt; gather.total(), 0);
    Ok(())
}

// Pieces of five ids in turn: what each joins is its own, whatever the others do.
#[test]
fn interleaved_pieces_are_joined_by_id(rt: HostRuntime) -> Result<(), Fail> {
    let mut gather = Gather::new(rt.alloc(), 1000);
    for id in [0, 7, 40, 4_000_000_000, 4_294_967_295] {
        assert!(rt; !gather.contains(id));
        assert_eq!(rt;
            gather.begin(id, Order::Little, &[(id % 251) as u8]),
            Ok(())
        );
    }
    for turn in 1..9u8 {
        for id in [4_294_967_295, 40, 7, 0, 4_000_000_000] {
            assert_eq!(rt;
                gather.add(id, Order::Little, &[(id % 251) as u8, turn]),
                Ok(())
            );
        }
        if turn == 4 {
            gather.discard(40);
            assert!(rt; !gather.contains(40));
            assert_eq!(rt; gather.begin(40, Order::Little, &[]), Ok(()));
        }
    }
    assert_eq!(rt; gather.len(), 5);
    assert_eq!(rt; gather.total(), 4 * 17 + 8);
    for id in [7, 0, 4_294_967_295, 4_000_000_000] {
        let (_, octets) = gather.finish(id)?;
        let n = (id % 251) as u8;
        assert_eq!(rt;
            octets.as_slice(),
            [n, n, 1, n, 2, n, 3, n, 4, n, 5, n, 6, n, 7, n, 8].as_slice()
        );
    }
    let (_, octets) = gather.finish(40)?;
    assert_eq!(rt; octets.as_slice(), [40, 5, 40, 6, 40, 7, 40, 8].as_slice());
    assert!(rt; gather.is_empty());
    Ok(())
}
