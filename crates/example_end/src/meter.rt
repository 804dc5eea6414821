//! The toy rule of the end. In a real session its place is taken by the rules of giop_calls. Its
//! meaning is `step_of` in specs/Meter.antt: change both.
ghost use Rattle.std.specs.Prelude.{◌≡◌};
ghost use Rattle.example_end.specs.Meter.{step_of};

use giop_mux::{CallRule, Step};

/// The toy rule: how many octets a message has, once its last piece came.
#[derive(Clone, Copy, Debug, PartialEq, Eq)]
pub struct Meter;

/// What is stored for the id of a message.
#[derive(Clone, Copy, Debug, PartialEq, Eq)]
pub enum Entry {
    /// Its first piece came, its last didn't.
    Arriving,
    /// It came, with so many octets.
    Whole(usize),
    /// It was cancelled while it came.
    Cancelled,
}

/// What may happen to a message.
#[derive(Clone, Copy, Debug, PartialEq, Eq)]
pub enum Event {
    /// Its first piece comes, and more are to come.
    Begin,
    /// Its last piece comes, and it has so many octets.
    End(usize),
    /// It is cancelled.
    Cancel,
}

/// Why an event is refused.
#[derive(Clone, Copy, Debug, PartialEq, Eq)]
pub enum MeterFault {
    /// A message comes already for the id.
    InUse,
    /// No message comes for the id.
    Stray,
}

impl CallRule for Meter {
    ghost use Rattle.example_end.specs.Meter.{step_of, is_closed, fault_keeps};

    type Entry = Entry;

    type Event = Event;

    type Answer = ();

    type Fault = MeterFault;

    ghost next = { λ rule. step_of };

    ghost closed = { λ rule. is_closed };

    ghost fault_keeps = { λ rule. fault_keeps };

    fn step(&self, entry: Option<Entry>, event: Event) -> Step<Entry, (), MeterFault>
        ensures { result ≡ step_of entry event }
    {
        match (entry, event) {
            (Some(Entry::Arriving), Event::Begin) => refused(entry, MeterFault::InUse),
            (_, Event::Begin) => accepted(Some(Entry::Arriving)),
            (Some(Entry::Arriving), Event::End(octets)) => accepted(Some(Entry::Whole(octets))),
            (Some(Entry::Cancelled), Event::End(_)) => accepted(entry),
            (_, Event::End(_)) => refused(entry, MeterFault::Stray),
            (Some(Entry::Arriving), Event::Cancel) => accepted(Some(Entry::Cancelled)),
            (_, Event::Cancel) => accepted(entry),
        }
    }

    fn is_closed(&self, entry: &Entry) -> bool {
        match entry {
            Entry::Arriving => false,
            Entry::Whole(_) => true,
            Entry::Cancelled => true,
        }
    }
}

fn accepted(entry: Option<Entry>) -> Step<Entry, (), MeterFault>
    ensures { result ≡ record { entry = entry; outcome = Ok tt } }
{
    Step {
        entry,
        outcome: Ok(()),
    }
}

fn refused(entry: Option<Entry>, fault: MeterFault) -> Step<Entry, (), MeterFault>
    ensures { result ≡ record { entry = entry; outcome = Err fault } }
{
    Step {
        entry,
        outcome: Err(fault),
    }
}
