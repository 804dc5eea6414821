//! Values by their parts, a word each: `octet:1`, or `members:2` of the two before it.

use anyhow::{Context, Result, bail};
use giop_cdr::OctetList;
use giop_types::Value;
use rows::{is_first, octets, parsed};
use std::alloc::Global;

/// The one value that is made of these parts.
pub fn value_of(alloc: Global, words: &[&str]) -> Result<Value> {
    let mut made = Vec::new(alloc);
    for word in words {
        let (kind, rest) = word.split_once(':').context("a part is KIND:VALUE")?;
        let value = part(alloc, &mut made, kind, rest)?;
        made.push(value)?;
    }
    match made.pop() {
        Some(value) if made.is_empty() => Ok(value),
        _ => bail!("not one value"),
    }
}

// The value of a word, which takes those that are within it off the end of what was made.
fn part(alloc: Global, made: &mut Vec<Value>, kind: &str, rest: &str) -> Result<Value> {
    Ok(match kind {
        "members" => Value::Members(last(alloc, made, parsed(rest)?)?),
        "items" => Value::Items(last(alloc, made, parsed(rest)?)?),
        "row" => Value::Row(last(alloc, made, parsed(rest)?)?),
        "bare" => Value::Choice {
            disc: parsed(rest)?,
            member: None,
        },
        "choice" => Value::Choice {
            disc: parsed(rest)?,
            member: Some(Box::new(alloc, made.pop().context("no member")?)?),
        },
        _ => leaf(alloc, kind, rest)?,
    })
}

// The last values, in their order.
fn last(alloc: Global, made: &mut Vec<Value>, count: u32) -> Result<Vec<Value>> {
    let mut values = Vec::new(alloc);
    for _ in 0..count {
        values.push(made.pop().context("too few parts")?)?;
    }
    values.reverse();
    Ok(values)
}

fn leaf(alloc: Global, kind: &str, rest: &str) -> Result<Value> {
    Ok(match kind {
        "boolean" => Value::Boolean(is_first(rest, "true", "false")?),
        "octet" => Value::Octet(parsed(rest)?),
        "char" => Value::Char(parsed(rest)?),
        "short" => Value::Short(parsed(rest)?),
        "long" => Value::Long(parsed(rest)?),
        "ulong" => Value::ULong(parsed(rest)?),
        "longlong" => Value::LongLong(parsed(rest)?),
        "ulonglong" => Value::ULongLong(parsed(rest)?),
        "label" => Value::Label(parsed(rest)?),
        "text" => Value::Text(OctetList::from(octets(alloc, rest)?)),
        "octets" => Value::Octets(OctetList::from(octets(alloc, rest)?)),
        _ => bail!("no kind of a value: {kind}"),
    })
}
