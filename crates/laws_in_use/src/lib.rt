//! The laws in use: each is applied to a worked instance, and what it says of that is told in
//! concrete values.
#![tactic(auto)]

mod agreement;
mod asking;
mod at_once;
mod calling;
mod calls;
mod cdr;
mod checked;
mod classes;
mod converted;
mod described;
mod doors;
mod ends;
mod feeding;
mod files;
mod gathering;
mod heard;
mod hearing;
mod in_json;
mod lane_acts;
mod lanes;
mod left;
mod limited;
mod limits;
mod locating;
mod messages;
mod named;
mod numbers;
mod observed;
mod on_the_way;
mod own_lanes;
mod pinged;
mod places;
mod referred;
mod refused;
mod replies;
mod runs;
mod sent;
mod serving;
mod sides;
mod spelled;
mod tables;
mod words;
mod worlds;
