//! Refused allocations: a table that is out of memory is as it was, and the same event succeeds
//! later. And an event that leaves no entry, which the rules of calls don't have.
use super::numbers::Numbers;
use giop_mux::{Addressed, Mux, Refusal};
use std::alloc::{AllocError, Global};
use std::process::Abort;
use std::test::Fail;

// Once more where memory was wanting: no second allocation is refused.
fn ids_at_last(alloc: Global, mux: &Mux<Numbers>) -> Result<Vec<u32>, AllocError> {
    match mux.ids(alloc) {
        Ok(ids) => Ok(ids),
        Err(_) => mux.ids(alloc),
    }
}

// Gives a new id an entry. Where that is refused for want of memory, all is as it was, and the same
// event once more is accepted.
fn put_at_last(
    rt: &impl Abort,
    alloc: Global,
    mux: &mut Mux<Numbers>,
    id: u32,
) -> Result<(), AllocError> {
    let before = ids_at_last(alloc, mux)?;
    if let Err(refusal) = mux.apply(id, Some(id)) {
        assert_eq!(rt; refusal, Refusal::NoMemory);
        assert!(rt; mux.entry(id).is_none());
        let after = ids_at_last(alloc, mux)?;
        assert_eq!(rt; after.as_slice(), before.as_slice());
        assert_eq!(rt; mux.apply(id, Some(id)), Ok(()));
    }
    assert_eq!(rt; mux.entry(id).copied(), Some(id));
    Ok(())
}

// With any one allocation refused it ends as with none.
#[test]
fn want_of_memory_changes_nothing(rt: HostRuntime) -> Result<(), Fail> {
    let alloc = rt.alloc();
    let mut mux = Mux::new(alloc, Numbers, 40);
    for turn in 0..40u32 {
        put_at_last(&rt, alloc, &mut mux, turn * 13 % 40)?;
    }
    // Putting an entry back, closing, taking and erasing take no memory.
    assert_eq!(rt; mux.apply(3, Some(1000)), Ok(()));
    for id in 10..20 {
        assert_eq!(rt; mux.apply(id, Some(0)), Ok(()));
        assert_eq!(rt; mux.take(id), Ok(Some(0)));
        assert_eq!(rt; mux.apply(id + 10, None), Ok(()));
        assert!(rt; mux.entry(id + 10).is_none());
    }
    assert_eq!(rt; mux.entry(3).copied(), Some(1000));
    assert_eq!(rt; mux.len(), 20);
    let ids = ids_at_last(alloc, &mux)?;
    assert_eq!(rt; ids.len(), 20);
    assert_eq!(rt;
        (ids.first().copied(), ids.get(10).copied()),
        (Some(0), Some(30))
    );
    Ok(())
}

// An entry under each of the ids 0 to 7.
fn eight(alloc: Global) -> Result<Vec<Addressed<Option<u32>>>, AllocError> {
    let mut events = Vec::with_capacity(alloc, 8)?;
    for id in 0..8u32 {
        events.push(Addressed { id, what: Some(id) })?;
    }
    Ok(events)
}

fn eight_at_last(alloc: Global) -> Result<Vec<Addressed<Option<u32>>>, AllocError> {
    match eight(alloc) {
        Ok(events) => Ok(events),
        Err(_) => eight(alloc),
    }
}

// With any one allocation refused: either nothing of the run is applied, or the one event whose
// entry has no memory is refused, and those behind it are applied.
#[test]
fn want_of_memory_in_a_run_refuses_one_event(rt: HostRuntime) -> Result<(), Fail> {
    let alloc = rt.alloc();
    let mut mux = Mux::new(alloc, Numbers, 40);
    let outcomes = match mux.apply_all(alloc, eight_at_last(alloc)?) {
        Ok(outcomes) => outcomes,
        Err(_) => {
            assert!(rt; mux.is_empty());
            mux.apply_all(alloc, eight_at_last(alloc)?)?
        }
    };
    assert_eq!(rt; outcomes.len(), 8);
    for id in 0..8u32 {
        match outcomes.get(id as usize) {
            Some(Ok(())) => assert_eq!(rt; mux.entry(id).copied(), Some(id)),
            Some(Err(Refusal::NoMemory)) => put_at_last(&rt, alloc, &mut mux, id)?,
            _ => return Err(Fail::from("another outcome")),
        }
    }
    assert_eq!(rt; mux.len(), 8);
    Ok(())
}
