//! Values by their descriptions, labels of unions, and interfaces.
ghost use Rattle.std.specs.Prelude.{◌≤◌, ◌^◌, length};

use crate::parts::value_of;
use crate::reading::front;
use anyhow::{Result, bail};
use giop_cdr::{CdrIn, CdrOut, EncodeFault, OctetList, Order, SliceOctets};
use giop_json::{desc_from_json, interface_from_json};
use giop_types::{CaseDesc, CheckedDesc, Desc, Interface, Value, decode, encode, fits};
use rows::{octets, order, parsed, shown, small};
use std::alloc::{AllocError, Global};
use std::fmt::Write;

/// What an output holds that had the octet 07 at an offset, and is given a value behind it; and
/// that the value is unfit. What is written has to be read again.
pub fn encoded(alloc: Global, of: [&str; 3], parts: &[&str]) -> Result<String> {
    let [of_order, start, desc] = of;
    let (of_order, start) = (order(of_order)?, small(start)?);
    let desc = desc_from_json(alloc, desc.as_bytes())?;
    let value = value_of(alloc, parts)?;
    let mut out = CdrOut::new(alloc, of_order, start as usize);
    out.write_octet(7)?;
    let answer = encode(&mut out, &desc, &value);
    let text = shown(alloc, out.as_slice())?;
    match (answer, fits(&desc, &value)) {
        (Ok(()), true) => {
            let source = SliceOctets::new(front(out.as_slice()));
            if !is_read(alloc, &source, of_order, start, &desc, &value) {
                bail!("it is read otherwise than it was written: {text}");
            }
            Ok(text)
        }
        (Err(EncodeFault::Unfit), false) => Ok(format!(in alloc; "{text} Unfit")?),
        _ => bail!("two answers"),
    }
}

// Whether a value is read behind the octet 07, and nothing is left behind it.
fn is_read(
    alloc: Global,
    source: &SliceOctets,
    order: Order,
    start: u8,
    desc: &CheckedDesc,
    value: &Value,
) -> bool
    requires { length source.now ≤ 2 ^ 20 }
{
    let mut input = CdrIn::new(source, order, start as usize);
    if input.read_octet() != Ok(7) {
        return false;
    }
    match decode(alloc, &mut input, desc) {
        Ok(again) => again == *value && input.remaining() == 0,
        Err(_) => false,
    }
}

/// A value that is read of octets whose first has an offset, as `Debug` shows it, or its fault; and
/// where the reader stands then.
pub fn decoded(alloc: Global, of: [&str; 3], digits: &str) -> Result<String> {
    let [of_order, start, desc] = of;
    let desc = desc_from_json(alloc, desc.as_bytes())?;
    let octets = octets(alloc, digits)?;
    let source = SliceOctets::new(front(octets.as_slice()));
    let mut input = CdrIn::new(&source, order(of_order)?, small(start)? as usize);
    Ok(match decode(alloc, &mut input, &desc) {
        Ok(value) => format!(in alloc; "{value:?}, at {}", input.position())?,
        Err(fault) => format!(in alloc; "{fault}, at {}", input.position())?,
    })
}

/// `checked`, or the number and the name of the fault of a union that has one case of these labels.
pub fn labelled(alloc: Global, disc: &str, labels: &[&str]) -> Result<String> {
    let mut numbers: Vec<i128> = Vec::new(alloc);
    for label in labels {
        numbers.push(parsed(label)?)?;
    }
    let case = CaseDesc {
        labels: numbers,
        name: OctetList::from_slice(alloc, b"only")?,
        desc: Desc::Octet,
    };
    let union = Desc::Choice {
        disc: Box::new(alloc, discriminant(alloc, disc)?)?,
        cases: vec![in alloc; case]?,
        fallback: None,
    };
    Ok(match CheckedDesc::check(union) {
        Ok(_) => "checked".to_string(alloc)?,
        Err(fault) => format!(in alloc; "{} {fault}", fault.number())?,
    })
}

// A boolean, a char and so on; or an enum of the two names `red` and `green`.
fn discriminant(alloc: Global, word: &str) -> Result<Desc> {
    Ok(match word {
        "boolean" => Desc::Boolean,
        "char" => Desc::Char,
        "longlong" => Desc::LongLong,
        "ulonglong" => Desc::ULongLong,
        "red,green" => Desc::Labels(vec![in alloc;
            OctetList::from_slice(alloc, b"red")?,
            OctetList::from_slice(alloc, b"green")?,
        ]?),
        _ => bail!("no discriminant: {word}"),
    })
}

/// Of an interface how many operations and exceptions it has; and for each name how it is found.
pub fn interface(alloc: Global, json: &str, names: &[&str]) -> Result<String> {
    let interface = interface_from_json(alloc, json.as_bytes())?;
    let (operations, exceptions) = (interface.operations().len(), interface.exceptions().len());
    let mut text = format!(in alloc; "{operations} operations, {exceptions} exceptions")?;
    for name in names {
        write_named(&mut text, &interface, name)?;
    }
    Ok(text)
}

fn write_named(text: &mut String, interface: &Interface, name: &str) -> Result<(), AllocError> {
    if let Some(operation) = interface.operation(name.as_bytes()) {
        let (ins, outs) = (&operation.ins, &operation.outs);
        text.push_str(if operation.oneway {
            ", oneway"
        } else {
            ", twoway"
        })?;
        return write!(
            text,
            " {name} ins {} outs {}",
            ins.as_slice().len(),
            outs.as_slice().len()
        );
    }
    match interface.exception(name.as_bytes()) {
        Some(members) => write!(text, ", {name} members {}", members.as_slice().len()),
        None => write!(text, ", {name} none"),
    }
}
