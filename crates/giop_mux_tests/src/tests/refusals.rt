//! Each refusal of a table, with its place, and what it leaves.
use super::notes::{Answer, Event, NotOpen, Note, Notes, has_closed, has_open, text};
use giop_mux::{Mux, Refusal, StillOpen};
use std::process::Abort;
use std::test::Fail;

// What stands in a full table of two: a closed note under 7 and an open one under 3.
fn assert_as_it_was(rt: &impl Abort, mux: &Mux<Notes>) {
    assert!(rt; has_closed(mux, 7, "seven"));
    assert!(rt; has_open(mux, 3, "three"));
    assert_eq!(rt; mux.len(), 2);
    assert!(rt; mux.is_full());
}

#[test]
fn a_refusal_has_its_place_and_changes_nothing(rt: HostRuntime) -> Result<(), Fail> {
    let alloc = rt.alloc();
    let mut mux = Mux::new(alloc, Notes, 2);
    assert_eq!(rt;
        mux.apply(7, Event::Write(text(alloc, "seven")?)),
        Ok(Answer::Written)
    );
    assert_eq!(rt; mux.apply(7, Event::Close), Ok(Answer::Closed));
    assert_eq!(rt;
        mux.apply(3, Event::Write(text(alloc, "three")?)),
        Ok(Answer::Written)
    );
    assert_as_it_was(&rt, &mux);

    // The rule refuses first, also at the limit, of an id with an entry and of one without.
    assert_eq!(rt; mux.apply(7, Event::Close), Err(Refusal::Rule(NotOpen)));
    assert_eq!(rt; mux.apply(9, Event::Close), Err(Refusal::Rule(NotOpen)));
    assert_as_it_was(&rt, &mux);

    // Then the limit, where an id without an entry would get one, and nowhere else.
    assert_eq!(rt;
        mux.apply(9, Event::Write(text(alloc, "nine")?)),
        Err(Refusal::TooManyCalls)
    );
    assert_eq!(rt; mux.apply(9, Event::Erase), Ok(Answer::Erased));
    assert_as_it_was(&rt, &mux);

    // An open call stays.
    assert_eq!(rt; mux.take(3), Err(StillOpen));
    assert_as_it_was(&rt, &mux);
    Ok(())
}

#[test]
fn a_full_table_steps_the_calls_that_it_has(rt: HostRuntime) -> Result<(), Fail> {
    let alloc = rt.alloc();
    let mut mux = Mux::new(alloc, Notes, 1);
    assert_eq!(rt;
        mux.apply(4, Event::Write(text(alloc, "old")?)),
        Ok(Answer::Written)
    );
    assert_eq!(rt; mux.apply(4, Event::Close), Ok(Answer::Closed));
    assert_eq!(rt;
        mux.apply(4, Event::Write(text(alloc, "new")?)),
        Ok(Answer::Written)
    );
    assert!(rt; has_open(&mux, 4, "new"));
    assert_eq!(rt; mux.apply(4, Event::Erase), Ok(Answer::Erased));
    assert!(rt; mux.is_empty());
    assert_eq!(rt;
        mux.apply(5, Event::Write(text(alloc, "five")?)),
        Ok(Answer::Written)
    );
    assert_eq!(rt;
        mux.apply(4, Event::Write(text(alloc, "four")?)),
        Err(Refusal::TooManyCalls)
    );
    Ok(())
}

#[test]
fn a_table_of_none_takes_none(rt: HostRuntime) -> Result<(), Fail> {
    let alloc = rt.alloc();
    let mut mux = Mux::new(alloc, Notes, 0);
    assert!(rt; mux.is_full());
    assert_eq!(rt; mux.apply(1, Event::Close), Err(Refusal::Rule(NotOpen)));
    assert_eq!(rt;
        mux.apply(1, Event::Write(text(alloc, "one")?)),
        Err(Refusal::TooManyCalls)
    );
    assert_eq!(rt; mux.take(1), Ok(None));
    Ok(())
}

#[test]
fn a_closed_entry_is_taken_once(rt: HostRuntime) -> Result<(), Fail> {
    let alloc = rt.alloc();
    let mut mux = Mux::new(alloc, Notes, 8);
    assert_eq!(rt;
        mux.apply(6, Event::Write(text(alloc, "six")?)),
        Ok(Answer::Written)
    );
    assert_eq!(rt; mux.apply(6, Event::Close), Ok(Answer::Closed));
    assert_eq!(rt; mux.take(6), Ok(Some(Note::Closed(text(alloc, "six")?))));
    assert_eq!(rt; mux.take(6), Ok(None));
    assert!(rt; mux.entry(6).is_none());
    assert!(rt; mux.is_empty());
    Ok(())
}

// What a person or a log reads of a refusal: the rule's own words, or the refusal's name.
#[test]
fn refusals_have_their_numbers_and_texts(rt: HostRuntime) -> Result<(), Fail> {
    let alloc = rt.alloc();
    let rule: Refusal<NotOpen> = Refusal::Rule(NotOpen);
    let full: Refusal<NotOpen> = Refusal::TooManyCalls;
    let memory: Refusal<NotOpen> = Refusal::NoMemory;
    assert_eq!(rt; [rule.number(), full.number(), memory.number()], [1, 2, 3]);
    assert_eq!(rt;
        format!(in alloc; "{rule}")?.as_str(),
        "the note isn't open"
    );
    assert_eq!(rt; format!(in alloc; "{full}")?.as_str(), "TooManyCalls");
    assert_eq!(rt; format!(in alloc; "{memory}")?.as_str(), "NoMemory");
    assert_eq!(rt; format!(in alloc; "{StillOpen}")?.as_str(), "StillOpen");
    Ok(())
}

#[test]
fn a_table_is_shown_by_its_size(rt: HostRuntime) -> Result<(), Fail> {
    let alloc = rt.alloc();
    let mut mux = Mux::new(alloc, Notes, 2);
    assert_eq!(rt;
        mux.apply(7, Event::Write(text(alloc, "seven")?)),
        Ok(Answer::Written)
    );
    assert_eq!(rt;
        format!(in alloc; "{mux:?}")?.as_str(),
        "Mux { len: 1, limit: 2, .. }"
    );
    Ok(())
}
