//! What of giop_msg only a proved test can say: refused allocations.
mod memory;
mod memory_last;
