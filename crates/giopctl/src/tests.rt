//! What no clause says: the words that are taken.

mod words;
