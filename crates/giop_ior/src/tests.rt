//! What no clause says: texts and octets worked by hand from the standard's rules, the printed
//! names, and that each call succeeds with ample memory.

mod corbaloc;
mod ior;
mod ior_text;
mod recorded;
