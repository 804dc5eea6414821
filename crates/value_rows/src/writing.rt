//! Values that are written, one after the other.
ghost use Rattle.std.specs.Prelude.{◌≤◌, ◌^◌, ◌<◌, length};

use anyhow::{Context, Result, bail};
use giop_cdr::CdrOut;
use rows::{is_first, octets, order, order_word, parsed, shown, small};
use std::alloc::Global;

/// What an output holds whose first octet has an offset, the offset behind it, and its order; by
/// the words order and offset, and the values. `begin=ORDER` begins an encapsulation, `end` ends it;
/// `checkpoint` is where `back` goes to.
pub fn write(alloc: Global, into: [&str; 2], values: &[&str]) -> Result<String> {
    let out = written(alloc, into, values)?;
    let (at, of_order) = (out.position(), order_word(out.order()));
    let octets = out.into_bytes();
    let text = shown(alloc, octets.as_slice())?;
    Ok(format!(in alloc; "{text}, at {at} {of_order}")?)
}

/// The same output as `Debug` shows it.
pub fn show(alloc: Global, into: [&str; 2], values: &[&str]) -> Result<String> {
    let out = written(alloc, into, values)?;
    Ok(format!(in alloc; "{out:?}")?)
}

fn written(alloc: Global, into: [&str; 2], values: &[&str]) -> Result<CdrOut> {
    let mut out = CdrOut::new(alloc, order(into[0])?, small(into[1])? as usize);
    let mut marks = Vec::new(alloc);
    let mut point = out.checkpoint();
    for word in values {
        match *word {
            "checkpoint" => point = out.checkpoint(),
            "back" => {
                if !out.can_go_back(&point) {
                    bail!("nothing to go back to");
                }
                out.back_to(point);
                point = out.checkpoint();
            }
            "end" => match marks.pop() {
                Some(mark) if out.can_end(&mark) => out.end_encapsulation(mark),
                _ => bail!("nothing to end"),
            },
            word => match word.split_once('=') {
                Some(("begin", inside)) => marks.push(out.begin_encapsulation(order(inside)?)?)?,
                Some((kind, value)) => write_value(alloc, &mut out, kind, value)?,
                None => bail!("no value: {word}"),
            },
        }
    }
    Ok(out)
}

fn write_value(alloc: Global, out: &mut CdrOut, kind: &str, value: &str) -> Result<()> {
    match kind {
        "boolean" => out.write_boolean(is_first(value, "true", "false")?)?,
        "octet" => out.write_octet(small(value)?)?,
        "char" => out.write_char(small(value)?)?,
        "short" => out.write_short(parsed(value)?)?,
        "ushort" => out.write_ushort(parsed(value)?)?,
        "long" => out.write_long(parsed(value)?)?,
        "ulong" => out.write_ulong(parsed(value)?)?,
        "longlong" => out.write_longlong(parsed(value)?)?,
        "ulonglong" => out.write_ulonglong(parsed(value)?)?,
        "align" => align(out, small(value)?)?,
        "string" => write_string(out, octets(alloc, value)?.as_slice())?,
        "octets" => {
            let octets = octets(alloc, value)?;
            out.write_octets(crate::reading::front(octets.as_slice()))?;
        }
        _ => bail!("no kind of a value: {kind}"),
    }
    Ok(())
}

fn align(out: &mut CdrOut, n: u8) -> Result<()> {
    if n == 0 || n > 8 {
        bail!("no alignment: {n}");
    }
    Ok(out.align(n as usize)?)
}

fn write_string(out: &mut CdrOut, text: &[u8]) -> Result<()> {
    let text = crate::reading::front(text);
    if text.contains(&0) {
        bail!("a null in a text");
    }
    Ok(out.write_string(text)?)
}
