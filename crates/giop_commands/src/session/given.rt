//! What sessions take: what they stand between, and how their calls are told. What passes is
//! `Traffic` in specs/Session/Traffic.antt.

use giop_forms::LineForm;
use giop_types::Interface;

/// What a session reads from, writes to, and is told on.
#[derive(Drop)]
pub struct Pipes<R, W, O> {
    /// What the peer sends.
    pub reader: R,
    /// What the peer is sent.
    pub writer: W,
    /// What is printed.
    pub out: O,
}

/// In which form calls are told, and by which interface their values.
#[derive(Clone, Copy)]
pub struct Showing<'a> {
    /// The form of the lines.
    pub lines: LineForm,
    /// The interface of the object that is called.
    pub interface: &'a Interface,
}
