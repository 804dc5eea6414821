//! What of giop_cdr only a proved test can say: longs at once, and refused allocations.
mod longs;
mod memory;
