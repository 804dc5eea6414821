//! What of giop_ior only a proved test can say: refused allocations.
mod memory;
