//! Tables by request id: what is stored for each id, acts that each reach one id, and what a run of
//! acts leaves of each id, in any interleaving and after any refusals.
//!
//! `specs/ById.antt` has the finite map by id, and `specs/Runs.antt` the theory. By it, what is
//! stored for an id is its own acts folded alone, and each of these acts has the result that it has
//! alone. The theory is generic in what is stored for an id and in what an act does to it, so that
//! each table of calls is one use of it.
#![tactic(auto)]

mod addressed;
pub mod laws;

pub use addressed::Addressed;
