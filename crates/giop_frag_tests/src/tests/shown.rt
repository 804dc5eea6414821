//! What a gatherer shows of itself, as a struct of its name shows by `{:?}`.
use giop_cdr::Order;
use giop_frag::Gather;
use std::test::Fail;

#[test]
fn a_gatherer_shows_how_much_it_holds(rt: HostRuntime) -> Result<(), Fail> {
    let alloc = rt.alloc();
    let mut gather = Gather::new(alloc, 2000);
    gather.begin(7, Order::Big, &[0; 600])?;
    gather.begin(9, Order::Little, &[1, 2, 3])?;
    let shown = format!(in alloc; "{gather:?}")?;
    let wanted = "Gather { limit: 2000, total: 603, ids: 2, blocks: 3 }";
    assert_eq!(rt; shown.as_str(), wanted);
    Ok(())
}
