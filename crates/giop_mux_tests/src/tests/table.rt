//! Tables of calls by id: their order and size, and runs of events of several ids.
use super::notes::{Answer, Event, NotOpen, Note, Notes, has_closed, has_open, text};
use giop_mux::{Addressed, Mux, Refusal};
use std::alloc::{AllocError, Global};
use std::test::Fail;

fn write(alloc: Global, id: u32, word: &str) -> Result<Addressed<Event>, AllocError> {
    Ok(Addressed {
        id,
        what: Event::Write(text(alloc, word)?),
    })
}

fn close(id: u32) -> Addressed<Event> {
    Addressed {
        id,
        what: Event::Close,
    }
}

#[test]
fn ids_ascend_whatever_the_order_of_events(rt: HostRuntime) -> Result<(), Fail> {
    let alloc = rt.alloc();
    let mut mux = Mux::new(alloc, Notes, 8);
    for id in [40, 7, 4_294_967_295, 0, 12] {
        assert_eq!(rt;
            mux.apply(id, Event::Write(text(alloc, "note")?)),
            Ok(Answer::Written)
        );
    }
    assert_eq!(rt; mux.apply(12, Event::Erase), Ok(Answer::Erased));
    assert_eq!(rt; mux.apply(7, Event::Close), Ok(Answer::Closed));
    let ids = mux.ids(alloc)?;
    assert_eq!(rt; ids.as_slice(), [0, 7, 40, 4_294_967_295].as_slice());
    Ok(())
}

#[test]
fn a_thousand_calls_stand_side_by_side(rt: HostRuntime) -> Result<(), Fail> {
    let alloc = rt.alloc();
    let mut mux = Mux::new(alloc, Notes, 1000);
    for turn in 0..1000u32 {
        let id = turn * 7 % 1000;
        assert_eq!(rt;
            mux.apply(id, Event::Write(text(alloc, "note")?)),
            Ok(Answer::Written)
        );
    }
    assert_eq!(rt; mux.len(), 1000);
    assert!(rt; mux.is_full());
    for id in 0..500 {
        assert_eq!(rt; mux.apply(id, Event::Close), Ok(Answer::Closed));
        assert_eq!(rt; mux.take(id), Ok(Some(Note::Closed(text(alloc, "note")?))));
    }
    assert_eq!(rt; mux.len(), 500);
    let ids = mux.ids(alloc)?;
    assert_eq!(rt; ids.len(), 500);
    for at in 0..500usize {
        assert_eq!(rt; ids.get(at).copied(), Some(at as u32 + 500));
    }
    Ok(())
}

// With ample memory no call tells want of it, up to the default limit of entries.
#[test]
fn all_calls_of_the_limit_stand_side_by_side(rt: HostRuntime) -> Result<(), Fail> {
    let alloc = rt.alloc();
    let mut mux = Mux::new(alloc, Notes, 1024);
    for id in 0..1024u32 {
        let word = text(alloc, "note")?;
        assert_eq!(rt;
            mux.apply(id * 4099, Event::Write(word)),
            Ok(Answer::Written)
        );
    }
    assert!(rt; mux.is_full());
    assert_eq!(rt;
        mux.apply(1, Event::Write(text(alloc, "more")?)),
        Err(Refusal::TooManyCalls)
    );
    let ids = mux.ids(alloc)?;
    assert_eq!(rt; ids.len(), 1024);
    for id in 0..1024u32 {
        assert!(rt; has_open(&mux, id * 4099, "note"));
        assert_eq!(rt; mux.apply(id * 4099, Event::Close), Ok(Answer::Closed));
        assert_eq!(rt;
            mux.take(id * 4099),
            Ok(Some(Note::Closed(text(alloc, "note")?)))
        );
    }
    assert!(rt; mux.is_empty());
    Ok(())
}

// And none in a run of as many events, each of a call of its own.
#[test]
fn a_run_answers_each_of_its_events(rt: HostRuntime) -> Result<(), Fail> {
    let alloc = rt.alloc();
    let mut events = Vec::new(alloc);
    let mut expected: Vec<Result<Answer, Refusal<NotOpen>>> = Vec::new(alloc);
    for id in 0..1024u32 {
        events.push(write(alloc, id, "note")?)?;
        expected.push(Ok(Answer::Written))?;
    }
    for id in 0..1024u32 {
        events.push(close(id))?;
        expected.push(Ok(Answer::Closed))?;
    }
    let mut mux = Mux::new(alloc, Notes, 1024);
    let outcomes = mux.apply_all(alloc, events)?;
    assert_eq!(rt; outcomes.as_slice(), expected.as_slice());
    assert!(rt; mux.is_full());
    Ok(())
}

#[test]
fn interleaved_calls_end_alike(rt: HostRuntime) -> Result<(), Fail> {
    let alloc = rt.alloc();
    let one = vec![in alloc;
        write(alloc, 1, "a")?,
        close(1),
        write(alloc, 2, "b")?,
        close(2),
    ]?;
    let other = vec![in alloc;
        write(alloc, 2, "b")?,
        write(alloc, 1, "a")?,
        close(2),
        close(1),
    ]?;
    for events in [one, other] {
        let mut mux = Mux::new(alloc, Notes, 2);
        let outcomes = mux.apply_all(alloc, events)?;
        assert_eq!(rt; outcomes.len(), 4);
        assert!(rt; has_closed(&mux, 1, "a"));
        assert!(rt; has_closed(&mux, 2, "b"));
        assert_eq!(rt; mux.len(), 2);
    }
    Ok(())
}

#[test]
fn a_run_goes_on_behind_refusals(rt: HostRuntime) -> Result<(), Fail> {
    let alloc = rt.alloc();
    let mut mux = Mux::new(alloc, Notes, 2);
    let events = vec![in alloc;
        close(2),
        write(alloc, 1, "a")?,
        close(1),
        close(1),
        write(alloc, 2, "b")?,
        write(alloc, 3, "c")?,
        close(2),
    ]?;
    let outcomes = mux.apply_all(alloc, events)?;
    let expected = [
        Err(Refusal::Rule(NotOpen)),
        Ok(Answer::Written),
        Ok(Answer::Closed),
        Err(Refusal::Rule(NotOpen)),
        Ok(Answer::Written),
        Err(Refusal::TooManyCalls),
        Ok(Answer::Closed),
    ];
    assert_eq!(rt; outcomes.as_slice(), expected.as_slice());
    assert!(rt; has_closed(&mux, 1, "a"));
    assert!(rt; has_closed(&mux, 2, "b"));
    assert!(rt; mux.entry(3).is_none());
    Ok(())
}
