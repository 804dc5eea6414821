//! A box held as its pointer, so that a struct of C can hold it.
#![tactic(auto)]

mod raw_box;

pub use raw_box::RawBox;
