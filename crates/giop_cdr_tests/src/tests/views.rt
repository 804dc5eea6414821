//! Strings, octets and tagged lists viewed where they lie, from one slice and from two parts.
ghost use Rattle.std.specs.Prelude.{◌≤◌, ◌^◌, length};

use super::two_parts::TwoParts;
use giop_cdr::{
    CdrFault, CdrIn, CdrKind, OctetList, Octets, Order, SliceOctets, Tagged, TaggedListAt,
};
use std::alloc::Global;
use std::process::Abort;
use std::test::Fail;

// A string, a sequence of octets, and a sequence of the two values (7, AA BB) and (8, none).
const VALUES: [u8; 42] = [
    0, 0, 0, 3, 0x68, 0x69, 0, 0xEE, 0, 0, 0, 2, 0xCC, 0xDD, 0xEE, 0xEE, 0, 0, 0, 2, 0, 0, 0, 7, 0,
    0, 0, 2, 0xAA, 0xBB, 0xEE, 0xEE, 0, 0, 0, 8, 0, 0, 0, 0, 0xEE, 0xEE,
];

// A value that is a number and octets.
#[derive(Debug, Drop)]
struct Entry {
    number: u32,
    octets: OctetList,
}

impl Tagged for Entry {
    ghost made = { λ number contents. record { number = number; octets = contents } };

    fn from_parts(number: u32, octets: OctetList) -> Entry {
        Entry { number, octets }
    }
}

fn expect_octets<S: Octets>(rt: &impl Abort, octets: &S, want: &[u8]) {
    assert_eq!(rt; octets.len(), want.len());
    for i in 0..want.len() {
        if i < octets.len() {
            assert_eq!(rt; octets.at(i), want[i]);
            assert_eq!(rt; octets.run(i)[0], want[i]);
        }
    }
}

fn expect_entries<S: Octets>(
    rt: &impl Abort,
    alloc: Global,
    list: &TaggedListAt<S, Entry>,
) -> Result<(), Fail> {
    assert_eq!(rt; (list.len(), list.is_empty()), (2, false));
    let wants: [(u32, &[u8]); 2] = [(7, &[0xAA, 0xBB]), (8, &[])];
    let mut place = 0;
    for entry in list.iter() {
        if place < 2 {
            assert_eq!(rt; entry.tag, wants[place].0);
            expect_octets(rt, &entry.octets, wants[place].1);
            place += 1;
        }
    }
    assert_eq!(rt; place, 2);
    let entries = list.to_vec(alloc)?;
    assert_eq!(rt; entries.len(), 2);
    assert_eq!(rt; (entries[0].number, entries[1].number), (7, 8));
    assert_eq!(rt; entries[0].octets.as_slice(), [0xAA, 0xBB].as_slice());
    Ok(())
}

fn expect_views<S: Octets>(rt: &impl Abort, alloc: Global, source: &S) -> Result<(), Fail>
    requires { length (S.octets source.now) ≤ 2 ^ 62 }
{
    let mut input = CdrIn::new(source, Order::Big, 0);
    let text = input.view_string(2).ok().ok_or("no string")?;
    expect_octets(rt, &text, b"hi");
    let copy = text.to_list(alloc)?;
    assert_eq!(rt; copy.as_slice(), b"hi".as_slice());
    let octets = input.view_octets(2).ok().ok_or("no octets")?;
    expect_octets(rt, &octets, &[0xCC, 0xDD]);
    let entries = input.view_tagged_list().ok().ok_or("no entries")?;
    expect_entries(rt, alloc, &entries)?;
    assert_eq!(rt; (input.position(), input.remaining()), (40, 2));
    Ok(())
}

#[test]
fn views_show_what_lies_in_a_slice_or_in_two_parts(rt: HostRuntime) -> Result<(), Fail> {
    expect_views(&rt, rt.alloc(), &SliceOctets::new(&VALUES))?;
    for cut in 0..VALUES.len() {
        let (front, back) = VALUES.split_at(cut);
        expect_views(&rt, rt.alloc(), &TwoParts::new(front, back))?;
    }
    Ok(())
}

#[test]
fn octets_in_a_slice_are_lent(rt: HostRuntime) -> Result<(), Fail> {
    let source = SliceOctets::new(&VALUES);
    let mut input = CdrIn::new(&source, Order::Big, 0);
    let text = input.view_string(0).ok().ok_or("no string")?;
    assert_eq!(rt; text.as_slice(), b"hi".as_slice());
    Ok(())
}

// What the first `cut` octets lack, where the list of entries begins at offset 16.
#[test]
fn a_list_cut_short_is_refused_at_the_field_that_lacks_octets(rt: HostRuntime) {
    let cases: [(usize, usize, CdrKind); 6] = [
        (19, 16, CdrKind::Short),
        (21, 16, CdrKind::BadCount),
        (23, 20, CdrKind::Short),
        (29, 24, CdrKind::BadCount),
        (35, 32, CdrKind::Short),
        (39, 36, CdrKind::Short),
    ];
    for (cut, at, kind) in cases {
        if cut <= VALUES.len() {
            let source = SliceOctets::new(&VALUES[..cut]);
            let mut input = CdrIn::new(&source, Order::Big, 0);
            let _ = input.skip_string(0);
            let _ = input.skip_octets(0);
            let list: Result<TaggedListAt<SliceOctets, Entry>, CdrFault> = input.view_tagged_list();
            assert_eq!(rt; list.err(), Some(CdrFault { at, kind }), "cut at {cut}");
            assert_eq!(rt; input.position(), 14);
        }
    }
}
