//! The memory of a message that the caller no longer needs, which serves the next one.
ghost use Rattle.std.specs.Prelude.{◌≡◌, ◌≤◌, ◌<◌, IfOk, [], vec_capacity};

use std::alloc::{AllocError, Global};
use std::mem;

// The most memory, in octets, that is kept for a later message.
const MOST_SPARE: usize = 65_536;

/// A list whose memory serves again, whatever octets it has.
#[derive(Debug, Drop)]
pub struct Spare {
    list: Vec<u8>,
    alloc: Global,
}

impl Spare {
    /// No memory.
    pub fn new(alloc: Global) -> Spare
        ensures { result.list.items ≡ [] }
    {
        Spare {
            list: Vec::new(alloc),
            alloc,
        }
    }

    /// A copy of the octets, in this memory where that has room for them.
    pub fn copied(&mut self, octets: &[u8]) -> Result<Vec<u8>, AllocError>
        ensures { IfOk result (λ list. list.items ≡ octets.now) }
    {
        if self.list.capacity() < octets.len() {
            return Vec::from_slice(self.alloc, octets);
        }
        let mut list = mem::replace(&mut self.list, Vec::new(self.alloc));
        list.clear();
        list.extend_from_slice(octets)?;
        Ok(list)
    }

    /// Keeps the memory of a list for a later one, unless it is large. It takes no memory.
    pub fn keep(&mut self, list: Vec<u8>)
        ensures kept { vec_capacity list ≤ 65_536 → self.new ≡ record self.old { list = list } }
        ensures large { 65_536 < vec_capacity list → self.new ≡ self.old }
    {
        if list.capacity() <= MOST_SPARE {
            self.list = list;
        }
    }
}
