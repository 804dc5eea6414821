//! Words of a row that stand for numbers, octets and the like.

use anyhow::{Result, bail};
use giop_cdr::Order;
use giop_msg::{Kind, Version};
use std::alloc::{AllocError, Global};

/// The words of a line, up to a comment.
pub fn split(alloc: Global, line: &str) -> Result<Vec<&str>, AllocError> {
    let row = match line.split_once('#') {
        Some((row, _)) => row,
        None => line,
    };
    row.split_whitespace().collect(alloc)
}

/// A number, in decimal digits.
pub fn number(word: &str) -> Result<u32> {
    match word.parse::<u32>() {
        Ok(number) => Ok(number),
        Err(_) => bail!("no number: {word}"),
    }
}

/// Octets in hexadecimal digits.
pub fn octets(alloc: Global, word: &str) -> Result<Vec<u8>> {
    Ok(hex::decode(alloc, word)?)
}

/// `big` or `little`.
pub fn order(word: &str) -> Result<Order> {
    Ok(match word {
        "big" => Order::Big,
        "little" => Order::Little,
        _ => bail!("no byte order: {word}"),
    })
}

/// `1.0`, `1.1` or `1.2`.
pub fn version(word: &str) -> Result<Version> {
    Ok(match word {
        "1.0" => Version::V10,
        "1.1" => Version::V11,
        "1.2" => Version::V12,
        _ => bail!("no version: {word}"),
    })
}

/// The name of a message.
pub fn kind(word: &str) -> Result<Kind> {
    Ok(match word {
        "Request" => Kind::Request,
        "Reply" => Kind::Reply,
        "CancelRequest" => Kind::CancelRequest,
        "LocateRequest" => Kind::LocateRequest,
        "LocateReply" => Kind::LocateReply,
        "CloseConnection" => Kind::CloseConnection,
        "MessageError" => Kind::MessageError,
        "Fragment" => Kind::Fragment,
        _ => bail!("no message: {word}"),
    })
}
