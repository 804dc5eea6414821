//! What a user of the end sees: three messages in turn, and any one allocation refused.
use crate::{End, EndFault, Entry};
use giop_cdr::Order;
use std::test::Fail;

// Three messages in turn: one comes whole, one is cancelled, one is refused.
#[test]
fn each_message_ends_as_alone(rt: HostRuntime) -> Result<(), Fail> {
    let mut end = End::new(rt.alloc(), 2, 20);
    assert_eq!(rt; end.first(7, Order::Big, &[1, 2, 3, 4, 5, 6, 7, 8]), Ok(()));
    assert_eq!(rt; end.first(7, Order::Big, &[1]), Err(EndFault::InUse));
    assert_eq!(rt; end.first(3, Order::Little, &[1, 2, 3, 4]), Ok(()));
    assert_eq!(rt; end.first(9, Order::Big, &[1]), Err(EndFault::TooManyCalls));
    assert_eq!(rt; end.more(9, Order::Big, &[1]), Err(EndFault::Stray));
    assert_eq!(rt;
        end.more(7, Order::Little, &[1]),
        Err(EndFault::OrderDiffers)
    );
    assert_eq!(rt; end.more(7, Order::Big, &[1; 9]), Err(EndFault::GatherFull));
    assert_eq!(rt; end.more(7, Order::Big, &[1; 8]), Ok(()));
    assert_eq!(rt; end.take(3), Err(EndFault::StillOpen));
    end.cancel(3);
    // Pieces of a cancelled message are ignored, whatever their order, and take no room.
    assert_eq!(rt; end.more(3, Order::Big, &[1; 40]), Ok(()));
    assert_eq!(rt; end.last(3, Order::Big, &[1; 40]), Ok(()));
    assert_eq!(rt; end.last(7, Order::Big, &[1; 4]), Ok(()));
    assert_eq!(rt; end.entry(7), Some(Entry::Whole(20)));
    assert_eq!(rt; end.last(7, Order::Big, &[1]), Err(EndFault::Stray));
    assert_eq!(rt; end.take(3), Ok(Some(Entry::Cancelled)));
    assert_eq!(rt; end.take(3), Ok(None));
    assert_eq!(rt; end.first(9, Order::Big, &[1; 20]), Ok(()));
    assert_eq!(rt; end.take(7), Ok(Some(Entry::Whole(20))));
    Ok(())
}

// With any one allocation refused it ends as with none: what is refused changes nothing.
#[test]
fn want_of_memory_changes_nothing(rt: HostRuntime) -> Result<(), Fail> {
    let mut end = End::new(rt.alloc(), 4, 100);
    for id in 0..4u32 {
        if end.first(id, Order::Big, &[1; 8]) == Err(EndFault::NoMemory) {
            assert!(rt; end.entry(id).is_none());
            assert_eq!(rt; end.more(id, Order::Big, &[1]), Err(EndFault::Stray));
            assert_eq!(rt; end.first(id, Order::Big, &[1; 8]), Ok(()));
        }
        if end.last(id, Order::Big, &[1; 8]) == Err(EndFault::NoMemory) {
            assert_eq!(rt; end.entry(id), Some(Entry::Arriving));
            assert_eq!(rt; end.last(id, Order::Big, &[1; 8]), Ok(()));
        }
        assert_eq!(rt; end.entry(id), Some(Entry::Whole(16)));
    }
    Ok(())
}
