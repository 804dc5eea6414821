//! Laws of one end: what its acts, its reads and whole runs of it leave, what is said of its calls
//! (docs/HEADLINE.md), and which limits it meets.
mod acting;
mod feeding;
mod headline;
mod held;
mod left;
mod limits;
mod standing;

pub use acting::what_an_own_act_leaves;
pub use feeding::any_reads_leave_the_same;
pub use headline::{
    each_call_of_a_run, same_calls_same_entries_at_client, same_calls_same_entries_at_server,
    what_is_cut_is_carried,
};
pub use held::{what_is_taken_is_held_at_client, what_is_taken_is_held_at_server};
pub use left::{what_is_left_is_unsent_at_client, what_is_left_is_unsent_at_server};
pub use limits::{limits_in_any_order_at_client, limits_in_any_order_at_server};
pub use standing::{entries_stand_at_client, entries_stand_at_server};
