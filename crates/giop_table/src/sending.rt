//! The rule of a call's slot: the rule of its entry, and beside it what each event does to the
//! messages of the call that are still to be sent. Its meaning is `sending_step` in
//! specs/Sending.antt: change both.
ghost use Rattle.std.specs.Prelude.{◌≡◌, Option, Some};
ghost use Rattle.giop_table.specs.Sending.{entry_of, sending_step, settled_by, slot_of, unsent_after, unsent_of};
ghost use Rattle.giop_table.specs.declared.slot.Slot.{Slot};

use crate::plan::{Plan, Planned};
use crate::slot::Slot;
use crate::unsent::Unsent;
use giop_mux::{CallRule, Side, Step};
use std::alloc::Global;

/// A rule of calls over slots: an entry, and beside it the messages that are still to be sent.
///
/// One event changes the entry and the messages together; a refused one changes neither.
#[derive(Drop)]
pub struct Sending<R: CallRule> {
    /// The rule of the entries.
    pub rule: R,
    /// Where empty lists of messages come from, which take no memory.
    pub alloc: Global,
}

impl<R: Side> CallRule for Sending<R> {
    ghost use Rattle.giop_table.specs.Sending.{entry_of, keeps_by, sending_step};

    type Entry = Slot<R::Entry>;

    type Event = Planned<R::Event>;

    type Answer = R::Answer;

    type Fault = R::Fault;

    ghost next = { λ sending. sending_step (R.next sending.rule) };

    ghost closed = { λ sending slot. R.closed sending.rule slot.entry };

    ghost fault_keeps = { λ sending slot planned. keeps_by slot planned.plan
        (R.next sending.rule (entry_of slot) planned.event).entry
        (R.next sending.rule (entry_of slot) planned.event).outcome
        (R.fault_keeps sending.rule (entry_of slot) planned.event) };

    #[inline(always)]
    fn step(
        &self,
        entry: Option<Slot<R::Entry>>,
        event: Planned<R::Event>,
    ) -> Step<Slot<R::Entry>, R::Answer, R::Fault>
        ensures { result ≡ sending_step (R.next self.now.rule) entry event }
    {
        let (entry, unsent) = parts(self.alloc, entry);
        let step = self.rule.step(entry, event.event);
        settle(step.entry, event.plan, unsent, step.outcome)
    }

    #[inline(always)]
    fn step_in(
        &self,
        slot: &mut Option<Slot<R::Entry>>,
        event: Planned<R::Event>,
    ) -> Result<R::Answer, R::Fault>
        ensures entry { slot.new ≡ (sending_step (R.next self.now.rule) slot.old event).entry }
        ensures outcome { result ≡ (sending_step (R.next self.now.rule) slot.old event).outcome }
    {
        match slot {
            Some(slot) => step_at(&self.rule, slot, event),
            None => {
                let step = self.step(None, event);
                *slot = step.entry;
                step.outcome
            }
        }
    }

    fn is_closed(&self, entry: &Slot<R::Entry>) -> bool {
        self.rule.is_closed(&entry.entry)
    }
}

// The step of a call that has a slot: the slot changes where it lies.
#[inline(always)]
fn step_at<R: Side>(
    rule: &R,
    slot: &mut Slot<R::Entry>,
    planned: Planned<R::Event>,
) -> Result<R::Answer, R::Fault>
    ensures { sending_step (R.next rule.now) (Some slot.old) planned
        ≡ record { entry = Some slot.new; outcome = result } }
{
    let answer = rule.step_at(&mut slot.entry, planned.event)?;
    carry_out(planned.plan, &mut slot.unsent);
    Ok(answer)
}

// Leaves what a plan leaves to be sent: the message that it puts out is gone.
#[inline(always)]
fn carry_out(plan: Plan, unsent: &mut Unsent)
    ensures { unsent.new ≡ unsent_after plan unsent.old }
{
    match plan {
        Plan::Put(messages) => *unsent = messages.into_parts().1,
        Plan::Next => {
            let _ = unsent.take_first();
        }
        Plan::Leave => {}
    }
}

// The entry and the messages of a slot; there are none where there is no slot.
#[inline(always)]
fn parts<E: Drop>(alloc: Global, slot: Option<Slot<E>>) -> (Option<E>, Unsent)
    ensures entry { result.0 ≡ entry_of slot }
    ensures unsent { result.1 ≡ unsent_of slot }
{
    match slot {
        Some(slot) => (Some(slot.entry), slot.unsent),
        None => (None, Unsent::new(alloc)),
    }
}

// A step with its messages beside it, as the plan says where it is accepted, and as they were where
// it is refused.
#[inline(always)]
fn settle<E: Drop, A: Drop, F: Drop>(
    entry: Option<E>,
    plan: Plan,
    unsent: Unsent,
    outcome: Result<A, F>,
) -> Step<Slot<E>, A, F>
    ensures { result ≡ settled_by entry plan unsent outcome }
{
    match outcome {
        Ok(answer) => {
            let mut left = unsent;
            carry_out(plan, &mut left);
            Step {
                entry: beside(entry, left),
                outcome: Ok(answer),
            }
        }
        Err(fault) => Step {
            entry: beside(entry, unsent),
            outcome: Err(fault),
        },
    }
}

#[inline(always)]
fn beside<E: Drop>(entry: Option<E>, unsent: Unsent) -> Option<Slot<E>>
    ensures { result ≡ slot_of entry unsent }
{
    match entry {
        Some(entry) => Some(Slot { entry, unsent }),
        None => None,
    }
}
