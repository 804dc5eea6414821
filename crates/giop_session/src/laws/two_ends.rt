//! Laws of two ends: what the one sends, what the other makes of it, and that both agree
//! (docs/AGREEMENT.md).
mod agreement;
mod coding;
mod lane_acts;
mod lane_events;
mod sent;

pub use agreement::two_ends_agree;
pub use coding::{
    clients_read_as_coding, own_ends_of_one_lane_agree, own_lanes_come_to_replies,
    pieces_are_gathered_as_they_come, servers_read_as_coding, what_is_sent_is_a_lanes,
    what_is_sent_is_read,
};
pub use lane_acts::{clients_do_the_lanes_act, servers_do_the_lanes_act};
pub use lane_events::{clients_hear_the_lanes_event, servers_hear_the_lanes_event};
pub use sent::{
    what_is_on_its_way, what_is_sent_is_an_item, what_is_sent_is_framed, what_is_sent_names_its_id,
};
