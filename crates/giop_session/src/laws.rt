//! Laws of one call at an end, whatever its rule: what a run of acts leaves of it. The modules
//! below it have those of one end (`one_end`) and of two (`two_ends`); `run_server`, `run_client`
//! and `run_world` make runs of which they speak.
//!
//! A function with an empty body is a law: its contract is what counts, and no program calls it.
ghost use Rattle.std.specs.Prelude.{◌≡◌};
ghost use Rattle.giop_ids.specs.Runs.{own, alone, told_alone, Runs};
ghost use Rattle.giop_session.specs.Runs.Alone.{SameCalls, SameOfEach, RunsFreely, SameActs, answers_of, MeetsNone, IsHeardAlone};
ghost use Rattle.giop_end.specs.Hearing.Feeding.{FedInTurn, Through};
ghost use Rattle.giop_end.specs.Hearing.Heard.{hears_in};
ghost use Rattle.giop_table.specs.CallTable.{at, rules_by, turn_by};

mod inputs;
mod one_end;
mod running;
mod two_ends;
mod world;

use crate::{Hearing, Side};
pub use inputs::{Answered, CheckedForm, ClientInput, ServerInput, WorldEvent};
pub use one_end::{
    any_reads_leave_the_same, each_call_of_a_run, entries_stand_at_client, entries_stand_at_server,
    limits_in_any_order_at_client, limits_in_any_order_at_server,
    same_calls_same_entries_at_client, same_calls_same_entries_at_server, what_an_own_act_leaves,
    what_is_cut_is_carried, what_is_left_is_unsent_at_client, what_is_left_is_unsent_at_server,
    what_is_taken_is_held_at_client, what_is_taken_is_held_at_server,
};
pub use running::{run_client, run_server};
pub use two_ends::{
    clients_do_the_lanes_act, clients_hear_the_lanes_event, clients_read_as_coding,
    own_ends_of_one_lane_agree, own_lanes_come_to_replies, pieces_are_gathered_as_they_come,
    servers_do_the_lanes_act, servers_hear_the_lanes_event, servers_read_as_coding, two_ends_agree,
    what_is_on_its_way, what_is_sent_is_a_lanes, what_is_sent_is_an_item, what_is_sent_is_framed,
    what_is_sent_is_read, what_is_sent_names_its_id,
};
pub use world::{World, run_world};

/// A run of acts continues after refusals. Whatever happens to other ids in it, a call has the
/// entry, the unsent messages, the pieces and the answers of its own acts alone, unless one of
/// these met a limit or was out of memory.
pub fn each_call_alone<R: Side>(rule: &R)
    ensures value { (h k acts results id : _) → Runs (rules_by R.Side rule.now) h acts results k
        → MeetsNone id acts results
        → at k id ≡ alone (turn_by R.Side rule.now) (at h id) (own id acts) }
    ensures told { (h k acts results id : _) → Runs (rules_by R.Side rule.now) h acts results k
        → MeetsNone id acts results → answers_of id acts results
        ≡ told_alone (turn_by R.Side rule.now) (at h id) (own id acts) }
{}

/// Two runs whose acts are equal for each id, in any interleaving, leave each call the same, where
/// they meet no limit and are never out of memory.
pub fn any_interleaving<R: Side>(rule: &R)
    ensures { (h k k' one other results results' : _)
        → RunsFreely (rules_by R.Side rule.now) h one results k
        → RunsFreely (rules_by R.Side rule.now) h other results' k'
        → SameActs one other → SameCalls k k' }
{}

/// A call is what its own messages make of it. After messages of which none is refused, what is
/// stored for an id is what the messages that name it leave, one after another, of what was stored
/// before. Messages that name other ids may lie between them anywhere.
pub fn own_messages_alone<R: Hearing>(rule: &R)
    ensures { (interface h k messages id : _) → Through (hears_in R.Hearing interface) h messages k
        → IsHeardAlone (turn_by R.Side h.rule) (R.act_by interface) h messages k id }
{}

/// Two ends that heard the same messages of each id, in the same order, hold the same calls,
/// however the messages of different ids were interleaved.
pub fn any_interleaving_of_messages<R: Hearing>(rule: &R)
    ensures { (interface h k k' one other : _) → Through (hears_in R.Hearing interface) h one k
        → Through (hears_in R.Hearing interface) h other k' → SameOfEach one other
        → SameCalls k k' }
{}

/// Octets may be fed in any pieces: what an end makes of octets and then of more is what it makes
/// of both at once.
pub fn any_reads<R: Hearing>(rule: &R)
    ensures { (interface unread left last h mid k more result : _)
        → FedInTurn (hears_in R.Hearing interface) unread left last h mid k more result }
{}
