//! Values that are read, one after the other: from one slice and from two parts, wherever these
//! meet.
ghost use Rattle.std.specs.Prelude.{◌≤◌, ◌^◌, length};

use crate::two_parts::TwoParts;
use anyhow::{Result, bail};
use giop_cdr::{CdrFault, CdrIn, Octets, OctetsAt, Order, SliceOctets};
use giop_ior::TaggedComponent;
use rows::{number, octets, order, order_word, shown, small};
use std::alloc::{AllocError, Global};
use std::fmt;
use std::fmt::Write;

/// What is read of octets whose first has an offset, and where the reader stands then; by the words
/// order, offset and octets, and the kinds of the values. Octets in two parts have to give that
/// too.
pub fn read(alloc: Global, of: [&str; 3], kinds: &[&str]) -> Result<String> {
    let [of_order, start, digits] = of;
    let (of_order, start) = (order(of_order)?, small(start)?);
    let octets = octets(alloc, digits)?;
    let octets = front(octets.as_slice());
    let text = read_all(alloc, &SliceOctets::new(octets), of_order, start, kinds)?;
    for cut in 0..octets.len() {
        let (front, back) = octets.split_at(cut);
        let again = read_all(alloc, &TwoParts::new(front, back), of_order, start, kinds)?;
        if again.as_str() != text.as_str() {
            bail!("otherwise in two parts that meet at {cut}: {again}");
        }
    }
    Ok(text)
}

/// The same of a slice, of which strings and octets are lent.
pub fn lent(alloc: Global, of: [&str; 3], kinds: &[&str]) -> Result<String> {
    let [of_order, start, digits] = of;
    let octets = octets(alloc, digits)?;
    let source = SliceOctets::new(front(octets.as_slice()));
    lend_all(alloc, &source, order(of_order)?, small(start)?, kinds)
}

// The octets and their reader have one lifetime here, which those that are lent have too.
fn lend_all<'a>(
    alloc: Global,
    source: &'a SliceOctets<'a>,
    order: Order,
    start: u8,
    kinds: &[&str],
) -> Result<String>
    requires { length source.now ≤ 2 ^ 20 }
{
    let mut input = CdrIn::new(source, order, start as usize);
    let mut text = String::new(alloc);
    for word in kinds {
        let said = lent_text(alloc, &mut input, word)?;
        write!(text, "{said}, ")?;
    }
    write!(text, "at {} of {}", input.position(), input.remaining())?;
    Ok(text)
}

/// At most a megabyte of octets.
pub fn front(octets: &[u8]) -> &[u8]
    ensures { length result.now ≤ 2 ^ 20 }
{
    &octets[..octets.len().min(1 << 20)]
}

// Reads values of these kinds. `open` goes into an encapsulation, and `leave` out of it.
fn read_all<S: Octets>(
    alloc: Global,
    source: &S,
    order: Order,
    start: u8,
    kinds: &[&str],
) -> Result<String>
    requires { length (S.octets source.now) ≤ 2 ^ 62 }
{
    let mut input = CdrIn::new(source, order, start as usize);
    let mut outside = None;
    let mut text = String::new(alloc);
    for word in kinds {
        let said = match *word {
            "open" => match input.open_encapsulation() {
                Ok(content) => {
                    outside = Some(input);
                    input = content;
                    order_word(input.order()).to_string(alloc)?
                }
                Err(fault) => format!(in alloc; "{fault}")?,
            },
            "leave" => match outside {
                Some(back) => {
                    let behind = input.remaining();
                    input = back;
                    outside = None;
                    format!(in alloc; "{behind} left")?
                }
                None => bail!("no encapsulation is open"),
            },
            word => value_text(alloc, &mut input, word)?,
        };
        write!(text, "{said}, ")?;
    }
    write!(text, "at {} of {}", input.position(), input.remaining())?;
    Ok(text)
}

// A value, or its fault. Behind a `:` stands a bound.
fn value_text<S: Octets>(alloc: Global, input: &mut CdrIn<S>, word: &str) -> Result<String> {
    let (kind, bound) = bounded(word)?;
    Ok(match kind {
        "boolean" => told(alloc, input.read_boolean())?,
        "octet" => told(alloc, input.read_octet())?,
        "char" => told(alloc, input.read_char())?,
        "short" => told(alloc, input.read_short())?,
        "ushort" => told(alloc, input.read_ushort())?,
        "long" => told(alloc, input.read_long())?,
        "ulong" => told(alloc, input.read_ulong())?,
        "longlong" => told(alloc, input.read_longlong())?,
        "ulonglong" => told(alloc, input.read_ulonglong())?,
        "count" => told(alloc, input.read_count())?,
        "string" => string_text(alloc, input, bound)?,
        "octets" => octets_text(alloc, input, bound)?,
        "tagged" => tagged_text(alloc, input)?,
        "place-of-8" => format!(in alloc; "{}", input.place::<8>())?,
        "reader" => format!(in alloc; "{input:?}")?,
        _ => bail!("no kind of a value: {word}"),
    })
}

fn bounded(word: &str) -> Result<(&str, u32)> {
    match word.split_once(':') {
        Some((kind, bound)) => Ok((kind, number(bound)?)),
        None => Ok((word, 0)),
    }
}

fn told<T: fmt::Display + Drop>(
    alloc: Global,
    read: Result<T, CdrFault>,
) -> Result<String, AllocError> {
    match read {
        Ok(value) => format!(in alloc; "{value}"),
        Err(fault) => format!(in alloc; "{fault}"),
    }
}

// A string is skipped, viewed and read, and has to be the same.
fn string_text<S: Octets>(alloc: Global, input: &mut CdrIn<S>, bound: u32) -> Result<String> {
    let mut skipping = input.fork();
    let mut viewing = input.fork();
    let skipped = skipping.skip_string(bound);
    let viewed = viewing.view_string(bound);
    let read = input.read_string(alloc, bound);
    let places = [skipping.position(), viewing.position(), input.position()];
    agreed(alloc, skipped, viewed, read, places)
}

// And so a sequence of octets.
fn octets_text<S: Octets>(alloc: Global, input: &mut CdrIn<S>, bound: u32) -> Result<String> {
    let mut skipping = input.fork();
    let mut viewing = input.fork();
    let skipped = skipping.skip_octets(bound);
    let viewed = viewing.view_octets(bound);
    let read = input.read_octets(alloc, bound);
    let places = [skipping.position(), viewing.position(), input.position()];
    agreed(alloc, skipped, viewed, read, places)
}

fn agreed<S: Octets>(
    alloc: Global,
    skipped: Result<(), CdrFault>,
    viewed: Result<OctetsAt<S>, CdrFault>,
    read: Result<Vec<u8>, CdrFault>,
    places: [usize; 3],
) -> Result<String> {
    if places[0] != places[2] || places[1] != places[2] {
        bail!("three places");
    }
    match (&skipped, &viewed, &read) {
        (Ok(()), Ok(view), Ok(octets)) if lies(view, octets.as_slice()) => {
            Ok(shown(alloc, octets.as_slice())?)
        }
        (Err(one), Err(other), Err(fault)) if one == fault && other == fault => {
            Ok(format!(in alloc; "{fault}")?)
        }
        _ => bail!("three answers"),
    }
}

// Whether a view has these octets, one by one and as the first of a run.
fn lies<S: Octets>(view: &OctetsAt<S>, octets: &[u8]) -> bool {
    if view.len() != octets.len() {
        return false;
    }
    for i in 0..octets.len() {
        if view.at(i) != octets[i] || view.run(i)[0] != octets[i] {
            return false;
        }
    }
    true
}

// The tags and octets of a list, each where it lies, and as it is copied.
fn tagged_text<S: Octets>(alloc: Global, input: &mut CdrIn<S>) -> Result<String> {
    let list = match input.view_tagged_list::<TaggedComponent>() {
        Ok(list) => list,
        Err(fault) => return Ok(format!(in alloc; "{fault}")?),
    };
    let copies = list.to_vec(alloc)?;
    let mut text = format!(in alloc; "{} tagged", list.len())?;
    let mut copies = copies.iter();
    for value in list.iter() {
        match copies.next() {
            Some(copy) if copy.tag == value.tag && lies(&value.octets, copy.octets.as_slice()) => {
                write!(
                    text,
                    " {}={}",
                    copy.tag,
                    shown(alloc, copy.octets.as_slice())?
                )?;
            }
            _ => bail!("two lists"),
        }
    }
    Ok(text)
}

fn lent_text<'a>(
    alloc: Global,
    input: &mut CdrIn<'a, SliceOctets<'a>>,
    word: &str,
) -> Result<String> {
    let (kind, bound) = bounded(word)?;
    let lent = match kind {
        "string" => input.string_slice(bound),
        "octets" => input.octets_slice(bound),
        "view" => match input.view_string(bound) {
            Ok(view) => Ok(view.as_slice()),
            Err(fault) => Err(fault),
        },
        _ => return value_text(alloc, input, word),
    };
    Ok(match lent {
        Ok(octets) => shown(alloc, octets)?,
        Err(fault) => format!(in alloc; "{fault}")?,
    })
}
