//! What the programs of rows share: the words of a row, octets as words, and the loop that prints a
//! line for each row.
#![tactic(auto)]

mod octet_words;
mod print;
mod words;

pub use octet_words::{octets, shown};
pub use print::{Rows, print_rows};
pub use words::{is_first, number, order, order_word, parsed, small, split};
