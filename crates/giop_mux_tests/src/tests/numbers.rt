//! The smallest rule: an event is the number that it leaves, or none. 0 is closed.
ghost use Rattle.std.specs.Prelude.{◌≡◌, Ok};

use giop_mux::{CallRule, Step};

/// The rule of numbers.
#[derive(Clone, Copy)]
pub struct Numbers;

impl CallRule for Numbers {
    ghost use Rattle.std.specs.Prelude.{Ok, ◌==◌};
    ghost use Rattle.giop_mux.specs.Faults.{no_fault};

    type Entry = u32;

    type Event = Option<u32>;

    type Answer = ();

    type Fault = ();

    ghost next = { λ rule entry event. record { entry = event; outcome = Ok tt } };

    ghost closed = { λ rule number. number == 0 };

    ghost fault_keeps = { λ rule entry event fault. no_fault fault };

    fn step(&self, _entry: Option<u32>, event: Option<u32>) -> Step<u32, (), ()>
        ensures { result ≡ record { entry = event; outcome = Ok tt } }
    {
        Step {
            entry: event,
            outcome: Ok(()),
        }
    }

    fn is_closed(&self, entry: &u32) -> bool {
        *entry == 0
    }
}
