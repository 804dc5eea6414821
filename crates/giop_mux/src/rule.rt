//! The trait of the rule of calls, by which a `Mux` steps each of them. The laws of `laws.rt` hold
//! for every type that implements it.
ghost use Rattle.std.specs.Prelude.{◌≡◌};

use crate::Step;

/// The rule by which one call runs: what each event does to the call's entry.
///
/// Its meaning is the ghost members `next` and `closed`: a step depends on this entry and this
/// event alone.
pub trait CallRule {
    ghost use Rattle.std.specs.Prelude.{◌≡◌, Bool, Option, IsErr};
    ghost use Rattle.giop_mux.specs.declared.step.Step.{Step};

    /// What the table stores for the id of a call.
    type Entry: Drop;
    /// What may happen to a call.
    type Event: Drop;
    /// What an accepted event returns.
    type Answer: Drop;
    /// Why an event is refused.
    type Fault: Drop;

    ghost next: { Self → Option Self.Entry → Self.Event
        → Step Self.Entry Self.Answer Self.Fault };

    ghost closed: { Self → Self.Entry → Bool };

    /// What the event does to a call with this entry, or to one without an entry. It takes no
    /// memory.
    fn step(
        &self,
        entry: Option<Self::Entry>,
        event: Self::Event,
    ) -> Step<Self::Entry, Self::Answer, Self::Fault>
        ensures { result ≡ next self.now entry event };

    /// Steps an entry where it lies: it leaves there what `step` would leave. By default that is
    /// `step`, with the entry moved out and back. A rule of large entries may write its own, which
    /// moves none. It takes no memory.
    #[inline(always)]
    fn step_in(
        &self,
        entry: &mut Option<Self::Entry>,
        event: Self::Event,
    ) -> Result<Self::Answer, Self::Fault>
        ensures entry { entry.new ≡ (next self.now entry.old event).entry }
        ensures outcome { result ≡ (next self.now entry.old event).outcome }
    {
        let step = self.step(entry.take(), event);
        *entry = step.entry;
        step.outcome
    }

    /// Whether the call is over, so that its entry may be taken out. It takes no memory.
    fn is_closed(&self, entry: &Self::Entry) -> bool
        ensures { result ≡ closed self.now entry.now };

    // After a fault the entry is the one that was passed in.
    ghost fault_keeps: { (rule : Self) (entry : Option Self.Entry) (event : Self.Event)
        → IsErr (next rule entry event).outcome → (next rule entry event).entry ≡ entry };
}
