//! Refused allocations: a gatherer that is out of memory is as it was, and the same call succeeds
//! later.
use giop_cdr::{OctetList, Octets, Order};
use giop_frag::{Gather, GatherFault};
use std::process::Abort;
use std::test::Fail;

// The order and the octets of an id, as one number that tells them apart.
fn shown(gather: &Gather, id: u32) -> u64 {
    let Some((order, chain)) = gather.chain(id) else {
        return 0;
    };
    let mut sum: u64 = match order {
        Order::Big => 1,
        Order::Little => 2,
    };
    for i in 0..chain.len() {
        sum = sum.wrapping_mul(257).wrapping_add(chain.at(i) as u64);
    }
    sum
}

// Begins or adds. Where that is refused for want of memory, all is as it was, and the same call
// once more is accepted.
fn put_at_last(rt: &impl Abort, gather: &mut Gather, id: u32, order: Order, octets: &[u8]) {
    let before = (
        shown(gather, 1),
        shown(gather, 2),
        gather.total(),
        gather.len(),
    );
    match put(gather, id, order, octets) {
        Err(GatherFault::NoMemory) => {
            let after = (
                shown(gather, 1),
                shown(gather, 2),
                gather.total(),
                gather.len(),
            );
            assert_eq!(rt; after, before);
            assert_eq!(rt; put(gather, id, order, octets), Ok(()));
        }
        answer => assert_eq!(rt; answer, Ok(())),
    }
}

// Takes the octets of an id out. Where that is refused for want of memory, all is as it was, and
// the same call once more is accepted.
fn finish_at_last(
    rt: &impl Abort,
    gather: &mut Gather,
    id: u32,
) -> Result<(Order, OctetList), GatherFault> {
    let before = (shown(gather, 1), shown(gather, 2), gather.total());
    match gather.finish(id) {
        Err(GatherFault::NoMemory) => {
            let after = (shown(gather, 1), shown(gather, 2), gather.total());
            assert_eq!(rt; after, before);
            gather.finish(id)
        }
        answer => answer,
    }
}

fn put(gather: &mut Gather, id: u32, order: Order, octets: &[u8]) -> Result<(), GatherFault> {
    if gather.contains(id) {
        gather.add(id, order, octets)
    } else {
        gather.begin(id, order, octets)
    }
}

// With any one allocation refused it ends as with none.
#[test]
fn want_of_memory_changes_nothing(rt: HostRuntime) -> Result<(), Fail> {
    let mut gather = Gather::new(rt.alloc(), 20);
    put_at_last(
        &rt,
        &mut gather,
        1,
        Order::Big,
        &[1, 2, 3, 4, 5, 6, 7, 8, 9, 10, 11, 12],
    );
    put_at_last(
        &rt,
        &mut gather,
        2,
        Order::Little,
        &[21, 22, 23, 24, 25, 26, 27, 28],
    );
    assert_eq!(rt; gather.total(), 20);
    assert_eq!(rt;
        put(&mut gather, 1, Order::Big, &[1]),
        Err(GatherFault::GatherFull)
    );
    let (order, octets) = finish_at_last(&rt, &mut gather, 2)?;
    assert_eq!(rt; order, Order::Little);
    assert_eq!(rt;
        octets.as_slice(),
        [21, 22, 23, 24, 25, 26, 27, 28].as_slice()
    );
    put_at_last(&rt, &mut gather, 1, Order::Big, &[13]);
    assert_eq!(rt; gather.total(), 13);
    gather.discard(2);
    let (order, octets) = finish_at_last(&rt, &mut gather, 1)?;
    assert_eq!(rt; order, Order::Big);
    assert_eq!(rt;
        octets.as_slice(),
        [1, 2, 3, 4, 5, 6, 7, 8, 9, 10, 11, 12, 13].as_slice()
    );
    assert_eq!(rt; gather.total(), 0);
    Ok(())
}

#[test]
fn a_refusal_is_told_by_its_number_and_its_name(rt: HostRuntime) -> Result<(), Fail> {
    let cases: [(GatherFault, u8, &str); 4] = [
        (GatherFault::Stray, 1, "Stray"),
        (GatherFault::OrderDiffers, 2, "OrderDiffers"),
        (GatherFault::GatherFull, 3, "GatherFull"),
        (GatherFault::NoMemory, 4, "NoMemory"),
    ];
    for (fault, number, name) in cases {
        assert_eq!(rt; fault.number(), number);
        let told = format!(in rt.alloc(); "{fault}")?;
        assert!(rt; told.as_bytes() == name.as_bytes());
    }
    Ok(())
}
