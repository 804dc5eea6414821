//! One message in pieces of every size, decoded where it lies as from one slice.
ghost use Rattle.std.specs.Prelude.{◌<◌, ◌≤◌, ◌^◌, length};

use giop_cdr::{CdrFault, CdrIn, Octets, Order, SliceOctets};
use giop_frag::{Gather, GatherFault};
use std::alloc::{AllocError, Global};
use std::test::Fail;

// A body of 6,036 octets, whose members lie across the ends of blocks.
#[derive(PartialEq, Drop)]
struct Body {
    number: u32,
    flag: u8,
    text: Vec<u8>,
    half: u16,
    bulk: Vec<u8>,
    last: u64,
}

fn decode<S: Octets>(alloc: Global, source: &S) -> Result<Body, CdrFault>
    requires { length (S.octets source.now) ≤ 2 ^ 62 }
{
    let mut input = CdrIn::new(source, Order::Little, 12);
    let number = input.read_ulong()?;
    let flag = input.read_octet()?;
    let text = input.read_string(alloc, 0)?;
    let half = input.read_ushort()?;
    let bulk = input.read_octets(alloc, 0)?;
    let last = input.read_ulonglong()?;
    Ok(Body {
        number,
        flag,
        text,
        half,
        bulk,
        last,
    })
}

// The octets of the body, little-endian and behind a header of 12 octets: each member stands behind
// the padding that its alignment asks for.
fn octets_of(alloc: Global, text: &[u8], bulk: &[u8]) -> Result<Vec<u8>, AllocError> {
    let mut octets = Vec::new(alloc);
    octets.extend_from_slice(b"\x78\x56\x34\x12\x9A\0\0\0\xBD\x02\0\0")?;
    octets.extend_from_slice(text)?;
    octets.extend_from_slice(b"\0\0\xDE\xBC\xB5\x14\0\0")?;
    octets.extend_from_slice(bulk)?;
    octets.extend_from_slice(b"\0\0\0\0\0\0\0\xEF\xCD\xAB\x89\x67\x45\x23\x01")?;
    Ok(octets)
}

// Gathers the octets in pieces of one size.
fn gather_in(gather: &mut Gather, octets: &[u8], size: usize) -> Result<(), GatherFault>
    requires { 0 < size }
{
    gather.discard(7);
    for piece in octets.chunks(size) {
        if gather.contains(7) {
            gather.add(7, Order::Little, piece)?;
        } else {
            gather.begin(7, Order::Little, piece)?;
        }
    }
    Ok(())
}

// Whether the octets gathered are decoded as this body, and as so many of them.
fn decodes_as(alloc: Global, gather: &Gather, wanted: &Body, length: usize) -> bool {
    let Some((order, chain)) = gather.chain(7) else {
        return false;
    };
    match decode(alloc, &chain) {
        Ok(body) => order == Order::Little && chain.len() == length && body == *wanted,
        Err(_) => false,
    }
}

#[test]
fn pieces_of_every_size_are_decoded_as_one_slice(rt: HostRuntime) -> Result<(), Fail> {
    let alloc = rt.alloc();
    let text = vec![in alloc; b't'; 700]?;
    let mut bulk = vec![in alloc; 0u8; 5_301]?;
    for (i, octet) in bulk.iter_mut().enumerate() {
        *octet = (i % 251) as u8;
    }
    let octets = octets_of(alloc, &text, &bulk)?;
    assert_eq!(rt; octets.len(), 6_036);
    let source = SliceOctets::new(&octets);
    let Ok(wanted) = decode(alloc, &source) else {
        return Err(Fail::from("not decoded"));
    };
    assert!(rt; wanted.number == 0x1234_5678 && wanted.flag == 0x9A && wanted.half == 0xBCDE);
    assert!(rt; wanted.text == text && wanted.bulk == bulk && wanted.last == 0x0123_4567_89AB_CDEF);
    let mut gather = Gather::new(alloc, 8_000);
    for size in 1..4_097usize {
        gather_in(&mut gather, &octets, size)?;
        assert!(rt; decodes_as(alloc, &gather, &wanted, octets.len()));
    }
    Ok(())
}
