//! A corbaloc written as text (CORBA 3.3 Part 2, 7.6.10.1), each address in full, and whether a
//! text can say it. What is written is defined in `specs/CorbalocWriting.antt`.
ghost use Rattle.std.specs.Prelude.{◌≡◌, ◌++◌, IfOk, OnOk};
ghost use Rattle.std.specs.Fmt.{decimal};
ghost use Rattle.std.specs.List.{list_all};
ghost use Rattle.std.specs.String.{string_bytes};
ghost use Rattle.percent_encoding.specs.Percent.{percent_encode};
ghost use Rattle.giop_ior.specs.declared.addresses.key_text.TheConstants.{ESCAPED};
ghost use Rattle.giop_ior.specs.CorbalocWriting.{address_text, comma_before, addresses_text, key_text, corbaloc_text, is_writable_address, is_writable};

use crate::addresses::address::Address;
use crate::addresses::address_reading::is_host;
use crate::addresses::corbaloc::Corbaloc;
use crate::addresses::key_text::ESCAPED;
use percent_encoding::percent_encode;
use std::alloc::{AllocError, Global};

fn append(text: &mut Vec<u8>, octets: &[u8]) -> Result<(), AllocError>
    ensures { OnOk result (text.new.items ≡ text.old.items ++ octets.now) }
{
    text.extend_from_slice(octets)
}

#[tactic(auto, using(std::proofs::lemmas::Fmt::decimal_digit))]
fn append_number(text: &mut Vec<u8>, number: u16) -> Result<(), AllocError>
    ensures { OnOk result (text.new.items ≡ text.old.items ++ decimal number) }
{
    if number < 10 {
        append(text, &[b'0' + number as u8])?;
        return Ok(());
    }
    append_number(text, number / 10)?;
    append(text, &[b'0' + (number % 10) as u8])?;
    Ok(())
}

fn append_address(text: &mut Vec<u8>, address: &Address) -> Result<(), AllocError>
    ensures { OnOk result (text.new.items ≡ text.old.items ++ address_text address.now) }
{
    append(text, b"iiop:")?;
    append_number(text, u16::from(address.major))?;
    append(text, b".")?;
    append_number(text, u16::from(address.minor))?;
    append(text, b"@")?;
    append(text, address.host.as_slice())?;
    append(text, b":")?;
    append_number(text, address.port)?;
    Ok(())
}

// The address at an index, behind the comma that parts it from the one before.
fn append_next(text: &mut Vec<u8>, i: usize, address: &Address) -> Result<(), AllocError>
    ensures { OnOk result
        (text.new.items ≡ text.old.items ++ (comma_before i ++ address_text address.now)) }
{
    if i > 0 {
        append(text, b",")?;
    }
    append_address(text, address)?;
    Ok(())
}

fn append_addresses(text: &mut Vec<u8>, addresses: &[Address]) -> Result<(), AllocError>
    ensures { OnOk result (text.new.items ≡ text.old.items ++ addresses_text addresses.now) }
{
    for (i, address) in addresses.iter().enumerate() {
        append_next(text, i, address)?;
    }
    Ok(())
}

fn escaped(alloc: Global, key: &[u8]) -> Result<String, AllocError>
    ensures { IfOk result (λ text. string_bytes text ≡ percent_encode ESCAPED key.now) }
{
    let mut text = String::new(alloc);
    percent_encode(key, ESCAPED).append_to(&mut text)?;
    Ok(text)
}

#[tactic(auto, using(crate::proofs::WritingLemmas::key_on))]
fn append_key(alloc: Global, text: &mut Vec<u8>, key: &[u8]) -> Result<(), AllocError>
    ensures { OnOk result (text.new.items ≡ text.old.items ++ key_text key.now) }
{
    if !key.is_empty() {
        let escaped = escaped(alloc, key)?;
        append(text, b"/")?;
        append(text, escaped.as_bytes())?;
    }
    Ok(())
}

/// The text of a corbaloc, in octets (CORBA 3.3 Part 2, 7.6.10.1): each address as
/// `iiop:major.minor@host:port`, with commas between them, and `/` and the key where the key isn't
/// empty. An octet of the key that is no letter, no digit and none of ``;/:?@&=+$,-_.!~*'()`` is
/// `%` and its two upper-case hexadecimal digits.
///
/// A corbaloc that `is_writable` is read back from its text; the text of another is no corbaloc.
#[tactic(auto, unfolding(crate::specs::CorbalocWriting::corbaloc_text))]
pub fn corbaloc_to_text(alloc: Global, corbaloc: &Corbaloc) -> Result<Vec<u8>, AllocError>
    ensures value { IfOk result (λ text. text.items ≡ corbaloc_text corbaloc.now) }
{
    let mut text = Vec::new(alloc);
    append(&mut text, b"corbaloc:")?;
    append_addresses(&mut text, corbaloc.addresses.as_slice())?;
    append_key(alloc, &mut text, corbaloc.key.as_slice())?;
    Ok(text)
}

fn is_writable_address(address: &Address) -> bool
    ensures { result ≡ is_writable_address address.now }
{
    address.major == 1 && is_host(address.host.as_slice())
}

fn are_writable_addresses(addresses: &[Address]) -> bool
    ensures { result ≡ list_all is_writable_address addresses.now }
{
    addresses.iter().all(|address| is_writable_address(address))
}

impl Corbaloc {
    /// Whether a text says this corbaloc: it has an address, each address is of version 1, and each
    /// host has an octet or more, all of them letters, digits, `-`, `_` or `.`. It takes no memory.
    #[tactic(auto, unfolding(crate::specs::CorbalocWriting::is_writable))]
    pub fn is_writable(&self) -> bool
        ensures { result ≡ is_writable self.now }
    {
        !self.addresses.is_empty() && are_writable_addresses(self.addresses.as_slice())
    }
}
