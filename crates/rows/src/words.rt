//! Words of a row that stand for numbers and the like.

use anyhow::{Result, bail};
use giop_cdr::Order;
use std::alloc::{AllocError, Global};
use std::str::FromStr;

/// The words of a line, up to a comment.
pub fn split(alloc: Global, line: &str) -> Result<Vec<&str>, AllocError> {
    let row = match line.split_once('#') {
        Some((row, _)) => row,
        None => line,
    };
    row.split_whitespace().collect(alloc)
}

/// A number, in decimal digits.
pub fn number(word: &str) -> Result<u32> {
    parsed(word)
}

/// A number up to 255, in decimal digits.
pub fn small(word: &str) -> Result<u8> {
    parsed(word)
}

/// A number of any type, in decimal digits.
pub fn parsed<T: FromStr<Err: Drop>>(word: &str) -> Result<T> {
    match word.parse::<T>() {
        Ok(number) => Ok(number),
        Err(_) => bail!("no number here: {word}"),
    }
}

/// `big` or `little`.
pub fn order(word: &str) -> Result<Order> {
    Ok(match word {
        "big" => Order::Big,
        "little" => Order::Little,
        _ => bail!("no byte order: {word}"),
    })
}

/// `big` or `little`.
pub fn order_word(order: Order) -> &'static str {
    match order {
        Order::Big => "big",
        Order::Little => "little",
    }
}

/// The first of two words for true, the second for false.
pub fn is_first(word: &str, first: &str, second: &str) -> Result<bool> {
    if word == first {
        return Ok(true);
    }
    if word == second {
        return Ok(false);
    }
    bail!("neither {first} nor {second}: {word}")
}
