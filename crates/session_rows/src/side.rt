//! What the ends of both sides have, for rows.

use anyhow::Result;
use giop_session::laws::Answered;
use std::alloc::{AllocError, Global};

/// An end that is given what rows say.
pub trait RowEnd: Drop {
    /// What it is given.
    type Input: Drop;

    /// What stands under an id.
    type Entry: Drop;

    /// What the words of a row give.
    fn input(alloc: Global, words: &[&str]) -> Result<Self::Input>;

    /// Gives the end something, octets in reads of so many at most.
    fn give(&mut self, input: Self::Input, read: usize) -> Answered<Self::Entry>;

    /// An entry by its name, and what it holds.
    fn write_entry(text: &mut String, entry: &Self::Entry) -> Result<(), AllocError>;

    /// The entries, ascending by their ids, and then the fault that stands, or `open`.
    fn write_table(&self, alloc: Global, text: &mut String) -> Result<(), AllocError>;

    /// What the call of an id came to.
    fn write_outcome(&self, text: &mut String, id: u32) -> Result<(), AllocError>;

    /// The octets that are put out and not written.
    fn put_out(&self) -> &[u8];

    /// Up to so many of them are written.
    fn write_off(&mut self, n: usize);

    /// How many blocks are taken, and how many octets are unread.
    fn counts(&self) -> (usize, usize);

    /// What the peer is to be sent after a fault of its own.
    fn error(&self) -> Option<[u8; 12]>;
}
