//! References and IIOP profiles (CORBA 3.3 Part 2, 7.6.2 and 9.7.2), read and written.
use giop_cdr::{CdrFault, CdrIn, CdrKind, CdrOut, EncodeFault, OctetList, Order, SliceOctets};
use giop_ior::{
    IiopProfile, Ior, Sequence, TaggedComponent, TaggedProfile, corbaloc_from_text, iiop_profile,
    iiop_view, read_ior, write_ior,
};
use std::process::Abort;
use std::test::Fail;

// The octets of a reference.
fn written(rt: &impl AllocGlobal, ior: &Ior, order: Order) -> Result<Vec<u8>, Fail> {
    let mut out = CdrOut::new(rt.alloc(), order, 0);
    write_ior(&mut out, ior)?;
    Ok(out.into_bytes())
}

// What a reader that stands at the first of these octets answers, and where it stands then.
fn read(rt: &impl AllocGlobal, octets: &[u8], order: Order) -> (Result<Ior, CdrFault>, usize) {
    let source = SliceOctets::new(&octets[..octets.len().min(1 << 20)]);
    let mut input = CdrIn::new(&source, order, 0);
    let answer = read_ior(rt.alloc(), &mut input);
    (answer, input.position())
}

// The profile that the octets of tag 0 are.
fn view(rt: &impl AllocGlobal, octets: &[u8]) -> Result<Result<IiopProfile, CdrFault>, Fail> {
    let tagged = TaggedProfile {
        tag: 0,
        octets: OctetList::from_slice(rt.alloc(), &octets[..octets.len().min(1 << 20)])?,
    };
    Ok(iiop_view(rt.alloc(), &tagged))
}

#[test]
fn the_nil_reference_goes_both_ways(rt: HostRuntime) -> Result<(), Fail> {
    let octets = [0, 0, 0, 1, 0, 0, 0, 0, 0, 0, 0, 0];
    let nil = Ior {
        type_id: OctetList::new(rt.alloc()),
        profiles: Sequence::new(rt.alloc()),
    };
    assert!(rt; nil.is_writable());
    assert_eq!(rt;
        written(&rt, &nil, Order::Big)?.as_slice(),
        octets.as_slice()
    );

    let (answer, end) = read(&rt, &octets, Order::Big);
    let again = answer?;
    assert!(rt; again.type_id.is_empty());
    assert!(rt; again.profiles.is_empty());
    assert_eq!(rt; end, octets.len());
    Ok(())
}

#[test]
fn a_reference_is_read_in_either_order(rt: HostRuntime) -> Result<(), Fail> {
    // Type id IDL:a:1.0, then a profile of tag 7 with two octets and one of tag 0 with none.
    let big = [
        0, 0, 0, 10, b'I', b'D', b'L', b':', b'a', b':', b'1', b'.', b'0', 0, 0, 0, 0, 0, 0, 2, 0,
        0, 0, 7, 0, 0, 0, 2, 1, 2, 0, 0, 0, 0, 0, 0, 0, 0, 0, 0,
    ];
    let little = [
        10, 0, 0, 0, b'I', b'D', b'L', b':', b'a', b':', b'1', b'.', b'0', 0, 0, 0, 2, 0, 0, 0, 7,
        0, 0, 0, 2, 0, 0, 0, 1, 2, 0, 0, 0, 0, 0, 0, 0, 0, 0, 0,
    ];
    for (octets, order) in [(big, Order::Big), (little, Order::Little)] {
        let (answer, _end) = read(&rt, &octets, order);
        let ior = answer?;
        assert_eq!(rt; ior.type_id.as_slice(), b"IDL:a:1.0".as_slice());
        assert_eq!(rt; ior.profiles.len(), 2);
        let profiles = ior.profiles.as_slice();
        assert_eq!(rt; (profiles[0].tag, profiles[1].tag), (7, 0));
        assert_eq!(rt; profiles[0].octets.as_slice(), [1, 2].as_slice());
        assert!(rt; profiles[1].octets.is_empty());
        assert_eq!(rt; written(&rt, &ior, order)?.as_slice(), octets.as_slice());
    }
    Ok(())
}

#[test]
fn a_damaged_reference_is_refused_at_its_field(rt: HostRuntime) {
    let rows: [(&[u8], usize, CdrKind); 5] = [
        (&[0, 0, 0], 0, CdrKind::Short),
        (&[0, 0, 0, 2, 1], 0, CdrKind::BadCount),
        (&[0, 0, 0, 1, 7, 0, 0, 0, 0, 0, 0, 0], 0, CdrKind::BadString),
        (&[0, 0, 0, 1, 0, 0, 0, 0, 0, 0, 0, 1], 8, CdrKind::BadCount),
        (
            &[0, 0, 0, 0, 0, 0, 0, 1, 0, 0, 0, 0, 0, 0, 0, 1],
            12,
            CdrKind::BadCount,
        ),
    ];
    for (octets, at, kind) in rows {
        let (answer, end) = read(&rt, octets, Order::Big);
        match answer {
            Ok(_) => assert!(rt; false, "read"),
            Err(fault) => assert_eq!(rt; fault, CdrFault { at, kind }),
        }
        assert_eq!(rt; end, 0);
    }
}

#[test]
fn a_null_in_the_type_id_is_unfit(rt: HostRuntime) -> Result<(), Fail> {
    let ior = Ior {
        type_id: OctetList::from_slice(rt.alloc(), b"a\x00b")?,
        profiles: Sequence::new(rt.alloc()),
    };
    assert!(rt; !ior.is_writable());
    let mut out = CdrOut::new(rt.alloc(), Order::Big, 0);
    assert_eq!(rt; write_ior(&mut out, &ior), Err(EncodeFault::Unfit));
    assert_eq!(rt; out.as_slice().len(), 0);
    Ok(())
}

// Version 1.2, host h, port 2809, key k, no components: big-endian.
const PROFILE: [u8; 24] = [
    0, 1, 2, 0, 0, 0, 0, 2, b'h', 0, 0x0A, 0xF9, 0, 0, 0, 1, b'k', 0, 0, 0, 0, 0, 0, 0,
];

#[test]
fn a_profile_is_read_and_written_again(rt: HostRuntime) -> Result<(), Fail> {
    let Ok(profile) = view(&rt, &PROFILE)? else {
        return Err(Fail::from("no profile"));
    };
    assert_eq!(rt; (profile.major, profile.minor, profile.port), (1, 2, 2809));
    assert_eq!(rt; profile.host.as_slice(), b"h".as_slice());
    assert_eq!(rt; profile.key.as_slice(), b"k".as_slice());
    assert!(rt; profile.components.is_empty());
    assert!(rt; profile.is_writable());
    let tagged = iiop_profile(rt.alloc(), &profile)?;
    assert_eq!(rt; tagged.tag, 0);
    assert_eq!(rt; tagged.octets.as_slice(), PROFILE.as_slice());
    Ok(())
}

#[test]
fn profiles_of_each_version_and_order(rt: HostRuntime) -> Result<(), Fail> {
    // Octets, and the minor version, port, key and number of components that they say.
    let rows: [(&[u8], u8, u16, &[u8], usize); 5] = [
        // Version 1.0 ends with the key: what stands behind it is passed over.
        (
            &[0, 1, 0, 0, 0, 0, 0, 2, b'h', 0, 0, 80, 0, 0, 0, 0],
            0,
            80,
            b"",
            0,
        ),
        (
            &[
                0, 1, 0, 0, 0, 0, 0, 2, b'h', 0, 0, 80, 0, 0, 0, 0, 0xFF, 0xFF,
            ],
            0,
            80,
            b"",
            0,
        ),
        // Little-endian.
        (
            &[1, 1, 0, 9, 2, 0, 0, 0, b'h', 0, 80, 0, 1, 0, 0, 0, 7],
            0,
            80,
            &[7],
            0,
        ),
        // Version 1.1 with a component of tag 1 and three octets, and one octet behind it.
        (
            &[
                0, 1, 1, 0, 0, 0, 0, 2, b'h', 0, 0xFF, 0xFF, 0, 0, 0, 0, 0, 0, 0, 1, 0, 0, 0, 1, 0,
                0, 0, 3, 1, 2, 3, 9,
            ],
            1,
            65535,
            b"",
            1,
        ),
        // A minor version that is not known yet.
        (
            &[
                0, 1, 255, 0, 0, 0, 0, 2, b'h', 0, 0, 0, 0, 0, 0, 0, 0, 0, 0, 0,
            ],
            255,
            0,
            b"",
            0,
        ),
    ];
    for (octets, minor, port, key, components) in rows {
        let Ok(profile) = view(&rt, octets)? else {
            return Err(Fail::from("no profile"));
        };
        assert_eq!(rt;
            (profile.major, profile.minor, profile.port),
            (1, minor, port)
        );
        assert_eq!(rt; profile.host.as_slice(), b"h".as_slice());
        assert_eq!(rt; profile.key.as_slice(), key);
        assert_eq!(rt; profile.components.len(), components);
    }
    Ok(())
}

#[test]
fn a_damaged_profile_is_refused_at_its_field(rt: HostRuntime) -> Result<(), Fail> {
    let rows: [(&[u8], usize, CdrKind); 9] = [
        (&[], 0, CdrKind::Short),
        (&[2, 1, 0], 0, CdrKind::BadOrder),
        (&[0], 1, CdrKind::Short),
        (&[0, 2, 0, 0, 0, 0, 0, 1, 0], 1, CdrKind::BadLabel),
        (&[0, 0, 0], 1, CdrKind::BadLabel),
        (&[0, 1], 2, CdrKind::Short),
        (&[0, 1, 0, 0, 0, 0, 0, 9, b'h'], 4, CdrKind::BadCount),
        (&[0, 1, 0, 0, 0, 0, 0, 2, b'h', 0, 0], 10, CdrKind::Short),
        // From version 1.1 on the components are wanted.
        (
            &[0, 1, 1, 0, 0, 0, 0, 2, b'h', 0, 0, 80, 0, 0, 0, 0],
            16,
            CdrKind::Short,
        ),
    ];
    for (octets, at, kind) in rows {
        match view(&rt, octets)? {
            Ok(_) => return Err(Fail::from("a profile")),
            Err(fault) => assert_eq!(rt; fault, CdrFault { at, kind }),
        }
    }
    Ok(())
}

#[test]
fn what_no_octets_spell_is_not_written(rt: HostRuntime) -> Result<(), Fail> {
    // A major and a minor version, a host, the number of components, and whether it can be written.
    let rows: [(u8, u8, &[u8], usize, bool); 6] = [
        (1, 0, b"h", 0, true),
        (1, 0, b"h", 1, false),
        (1, 1, b"h", 1, true),
        (1, 2, b"", 0, true),
        (2, 0, b"h", 0, false),
        (1, 0, b"a\x00b", 0, false),
    ];
    for (major, minor, host, count, writable) in rows {
        let mut components = Vec::new(rt.alloc());
        for _ in 0..count {
            components.push(TaggedComponent {
                tag: 1,
                octets: OctetList::new(rt.alloc()),
            })?;
        }
        let profile = IiopProfile {
            major,
            minor,
            host: OctetList::from_slice(rt.alloc(), host)?,
            port: 1,
            key: OctetList::new(rt.alloc()),
            components: Sequence::from(components),
        };
        assert_eq!(rt; profile.is_writable(), writable);
        if !writable {
            match iiop_profile(rt.alloc(), &profile) {
                Ok(_) => return Err(Fail::from("written")),
                Err(fault) => assert_eq!(rt; fault, EncodeFault::Unfit),
            }
        }
    }
    Ok(())
}

#[test]
fn a_corbaloc_becomes_a_reference(rt: HostRuntime) -> Result<(), Fail> {
    let corbaloc = corbaloc_from_text(rt.alloc(), b"corbaloc::h,iiop:1.2@h/k")?;
    let ior = corbaloc.to_ior(rt.alloc())?;
    assert!(rt; ior.type_id.is_empty());
    assert_eq!(rt; ior.profiles.len(), 2);
    let profiles = ior.profiles.as_slice();
    assert_eq!(rt; (profiles[0].tag, profiles[1].tag), (0, 0));
    assert_eq!(rt;
        profiles[0].octets.as_slice(),
        [
            0, 1, 0, 0, 0, 0, 0, 2, b'h', 0, 0x0A, 0xF9, 0, 0, 0, 1, b'k'
        ]
        .as_slice()
    );
    assert_eq!(rt; profiles[1].octets.as_slice(), PROFILE.as_slice());
    Ok(())
}
