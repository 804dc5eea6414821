//! The rule of the table of an observer: it keeps what is put. Its meaning is `kept` in
//! specs/Keep.antt: change both.
ghost use Rattle.std.specs.Prelude.{◌≡◌};
ghost use Rattle.giop_trace.specs.Keep.{kept};

use crate::Flow;
use giop_mux::{CallRule, Step};

/// The rule of a table in which the flow that is put under an id stands there then. Each entry may
/// be taken out.
#[derive(Clone, Copy, Debug, PartialEq, Eq)]
pub struct Keep;

impl CallRule for Keep {
    ghost use Rattle.std.specs.Prelude.{true};
    ghost use Rattle.giop_trace.specs.Keep.{kept, fault_keeps};

    type Entry = Flow;

    type Event = Flow;

    type Answer = ();

    type Fault = ();

    ghost next = { λ rule. kept };

    ghost closed = { λ rule flow. true };

    ghost fault_keeps = { λ rule. fault_keeps };

    fn step(&self, entry: Option<Flow>, event: Flow) -> Step<Flow, (), ()>
        ensures { result ≡ kept entry event }
    {
        drop(entry);
        Step {
            entry: Some(event),
            outcome: Ok(()),
        }
    }

    fn is_closed(&self, entry: &Flow) -> bool {
        true
    }
}
