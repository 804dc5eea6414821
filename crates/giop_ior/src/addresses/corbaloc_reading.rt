//! A corbaloc text (CORBA 3.3 Part 2, 7.6.10.1), read from the left in one pass. Where that fails,
//! a second pass without memory looks for a fault, so that out of memory comes after every fault.
ghost use Rattle.std.specs.Prelude.{◌≡◌, ◌+◌, ◌<◌, ◌^◌, ◌⊎◌, ◌++◌, [], ◌∷◌, length, Ok, Err, IfOk, IfErr, OnOk, IsOk};
ghost use Rattle.giop_ior.specs.AddressAt.{address_view};
ghost use Rattle.giop_ior.specs.Corbaloc.{CorbalocText};
ghost use Rattle.giop_ior.specs.CorbalocFault.{AnswersOrWants, Tells, IsAnswered, no_memory};
ghost use Rattle.giop_ior.specs.FirstFault.{IsFirstFault};
ghost use Rattle.giop_ior.specs.CorbalocReading.{address_at, addresses_at, corbaloc_of};

use crate::addresses::address::Address;
use crate::addresses::address_reading::{AddressAt, address_at};
use crate::addresses::corbaloc::Corbaloc;
use crate::addresses::corbaloc_fault::{CorbalocFault, CorbalocKind};
use crate::addresses::cuts::cut;
use crate::addresses::key_text::{judge_key, key_at};
use crate::references::sequence::Sequence;
use giop_cdr::OctetList;
use std::alloc::{AllocError, Global};

// Where the addresses begin: behind `corbaloc:`.
const START: usize = 9;

fn to_owned(alloc: Global, address: AddressAt) -> Result<Address, AllocError>
    ensures { IfOk result (λ own. own ≡ address_view address.entry) }
{
    Ok(Address {
        major: address.major,
        minor: address.minor,
        host: OctetList::from_slice(alloc, address.host)?,
        port: address.port,
    })
}

fn read_address(alloc: Global, at: usize, text: &[u8]) -> Result<Address, CorbalocFault>
    requires { at + length text.now < 2 ^ 64 }
    ensures { AnswersOrWants (λ address. address) result (address_at at text.now) }
{
    Ok(to_owned(alloc, address_at(at, text)?)?)
}

fn push(addresses: &mut Vec<Address>, address: Address) -> Result<(), CorbalocFault>
    ensures ok { OnOk result (addresses.new.items ≡ addresses.old.items ++ address ∷ []) }
    ensures err { IfErr result (λ e. e ≡ no_memory) }
{
    match addresses.push(address) {
        Ok(()) => Ok(()),
        Err(_) => Err(CorbalocFault::from(AllocError)),
    }
}

// The addresses of a list that begins at this place.
fn read_addresses(
    alloc: Global,
    start: usize,
    text: &[u8],
) -> Result<Sequence<Address>, CorbalocFault>
    requires { start + length text.now < 2 ^ 64 }
    ensures { AnswersOrWants (λ list. list) result (addresses_at start text.now) }
{
    let mut addresses = Vec::new(alloc);
    let mut at = start;
    let mut rest = text;
    while let Some((first, more)) = cut(b',', rest) {
        push(&mut addresses, read_address(alloc, at, first)?)?;
        at += first.len() + 1;
        rest = more;
    }
    push(&mut addresses, read_address(alloc, at, rest)?)?;
    Ok(Sequence::from(addresses))
}

// Whether each part of a list that begins at this place is an address, without memory.
fn judge_addresses(start: usize, text: &[u8]) -> Result<(), CorbalocFault>
    requires { start + length text.now < 2 ^ 64 }
    ensures { Tells result (addresses_at start text.now) }
{
    let mut at = start;
    let mut rest = text;
    while let Some((first, more)) = cut(b',', rest) {
        address_at(at, first)?;
        at += first.len() + 1;
        rest = more;
    }
    address_at(at, rest)?;
    Ok(())
}

// The corbaloc that a text is, in one pass. When it is out of memory, a later fault isn't found.
#[tactic(auto, unfolding(crate::specs::CorbalocReading::corbaloc_of))]
fn read_corbaloc(alloc: Global, text: &[u8]) -> Result<Corbaloc, CorbalocFault>
    ensures { AnswersOrWants (λ c. c) result (corbaloc_of text.now) }
{
    let Some(body) = text.strip_prefix(b"corbaloc:") else {
        return Err(CorbalocFault {
            at: 0,
            kind: CorbalocKind::BadPrefix,
        });
    };
    let Some((list, key)) = cut(b'/', body) else {
        let addresses = read_addresses(alloc, START, body)?;
        let key = OctetList::new(alloc);
        return Ok(Corbaloc { addresses, key });
    };
    let addresses = read_addresses(alloc, START, list)?;
    let key = key_at(alloc, START + list.len() + 1, key)?;
    Ok(Corbaloc { addresses, key })
}

// Whether the text is a corbaloc, without memory.
#[tactic(auto, unfolding(crate::specs::CorbalocReading::corbaloc_of, crate::specs::CorbalocReading::key_at))]
fn judge_corbaloc(text: &[u8]) -> Result<(), CorbalocFault>
    ensures { Tells result (corbaloc_of text.now) }
{
    let Some(body) = text.strip_prefix(b"corbaloc:") else {
        return Err(CorbalocFault {
            at: 0,
            kind: CorbalocKind::BadPrefix,
        });
    };
    let Some((list, key)) = cut(b'/', body) else {
        return judge_addresses(START, body);
    };
    judge_addresses(START, list)?;
    judge_key(START + list.len() + 1, key)
}

// The corbaloc that a text is. Out of memory comes after every fault of the text.
fn corbaloc_of(alloc: Global, text: &[u8]) -> Result<Corbaloc, CorbalocFault>
    ensures value { IfOk result (λ c. corbaloc_of text.now ≡ Ok c) }
    ensures err { IfErr result (λ e. (corbaloc_of text.now ≡ Err e)
        ⊎ ((e ≡ no_memory) × IsOk (corbaloc_of text.now))) }
{
    let fault = match read_corbaloc(alloc, text) {
        Ok(corbaloc) => return Ok(corbaloc),
        Err(fault) => fault,
    };
    judge_corbaloc(text)?;
    Err(fault)
}

/// The corbaloc that a text is, in octets (CORBA 3.3 Part 2, 7.6.10.1): `corbaloc:`, addresses with
/// commas between them, and where there is a key `/` and the key. An address is `:` or `iiop:`,
/// then perhaps a version and `@`, the host, and perhaps `:` and the port. Without these the
/// version is 1.0, and the port 2809. An octet of the key that is no letter, no digit and none of
/// ``;/:?@&=+$,-_.!~*'()`` is `%` and its two hexadecimal digits; any other may be escaped so too.
///
/// Another text is refused with its first fault from the left, at the place that `CorbalocFault`
/// says. When out of memory, for a text that is a corbaloc, it is NoMemory at 0.
pub fn corbaloc_from_text(alloc: Global, text: &[u8]) -> Result<Corbaloc, CorbalocFault>
    // What is returned is what the text says by the grammar, and what it says is returned.
    ensures found { IfOk result (λ c. CorbalocText c text.now) }
    ensures only { (c : _) → CorbalocText c text.now → IsAnswered result c }

    // Which refusal it is.
    ensures exact { IfOk result (λ c. corbaloc_of text.now ≡ Ok c) }
    ensures err { IfErr result (λ e. (corbaloc_of text.now ≡ Err e)
        ⊎ ((e ≡ no_memory) × IsOk (corbaloc_of text.now))) }

    // What the refusal says of the text, by the grammar.
    ensures first { IfErr result (λ e. IsFirstFault text.now e ⊎ (e ≡ no_memory)) }
{
    corbaloc_of(alloc, text)
}
