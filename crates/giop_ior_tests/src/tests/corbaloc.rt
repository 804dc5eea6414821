//! Each call on corbalocs once, and what the built program doesn't say. Texts that are read, and each
//! fault with its place, are cases of that (tests/cases/corbaloc).
use giop_cdr::OctetList;
use giop_ior::{
    Address, Corbaloc, CorbalocFault, CorbalocKind, Sequence, corbaloc_from_text, corbaloc_to_text,
};
use std::test::Fail;

// A corbaloc of one address, `iiop:1.0@h:2809`.
fn with_key(rt: &impl AllocGlobal, key: &[u8]) -> Result<Corbaloc, Fail> {
    let mut addresses = Vec::new(rt.alloc());
    addresses.push(Address {
        major: 1,
        minor: 0,
        host: OctetList::from_slice(rt.alloc(), b"h")?,
        port: 2809,
    })?;
    Ok(Corbaloc {
        addresses: Sequence::from(addresses),
        key: OctetList::from_slice(rt.alloc(), key)?,
    })
}

#[test]
fn a_text_says_addresses_and_a_key(rt: HostRuntime) -> Result<(), Fail> {
    let corbaloc = corbaloc_from_text(rt.alloc(), b"corbaloc:iiop:1.2@h:65535,:g/a%20b")?;
    let wanted: [(u8, &[u8], u16); 2] = [(2, b"h", 65535), (0, b"g", 2809)];
    assert_eq!(rt; corbaloc.addresses.len(), 2);
    for (address, (minor, host, port)) in corbaloc.addresses.as_slice().iter().zip(wanted) {
        assert_eq!(rt;
            (address.major, address.minor, address.port),
            (1, minor, port)
        );
        assert_eq!(rt; address.host.as_slice(), host);
    }
    assert_eq!(rt; corbaloc.key.as_slice(), b"a b".as_slice());
    let again = corbaloc_to_text(rt.alloc(), &corbaloc)?;
    let wanted = b"corbaloc:iiop:1.2@h:65535,iiop:1.0@g:2809/a%20b";
    assert_eq!(rt; again.as_slice(), wanted.as_slice());
    Ok(())
}

#[test]
fn an_octet_of_a_key_that_is_not_kept_has_to_be_escaped(rt: HostRuntime) -> Result<(), Fail> {
    let kept = b"ABCDEFGHIJKLMNOPQRSTUVWXYZabcdefghijklmnopqrstuvwxyz0123456789;/:?@&=+$,-_.!~*'()";
    let front = b"corbaloc:iiop:1.0@h:2809/";
    for octet in 0..=255u8 {
        let mut alone = Vec::from_slice(rt.alloc(), front)?;
        alone.push(octet)?;
        let kind = match octet {
            b'%' => CorbalocKind::BadEscape,
            _ => CorbalocKind::BadChar,
        };
        let at = front.len();
        match corbaloc_from_text(rt.alloc(), alone.as_slice()) {
            Ok(corbaloc) => {
                assert!(rt; kept.contains(&octet), "{octet}");
                assert_eq!(rt; corbaloc.key.as_slice(), [octet].as_slice());
            }
            Err(fault) => {
                assert!(rt; !kept.contains(&octet), "{octet}");
                assert_eq!(rt; fault, CorbalocFault { at, kind });
            }
        }
    }
    Ok(())
}

#[test]
fn what_no_text_says_is_not_writable(rt: HostRuntime) -> Result<(), Fail> {
    // A major version and a host of an address, and whether it can be written.
    let rows: [(u8, &[u8], bool); 8] = [
        (1, b"h", true),
        (1, b"-_.9Zz", true),
        (0, b"h", false),
        (2, b"h", false),
        (1, b"", false),
        (1, b"a b", false),
        (1, b"a:1", false),
        (1, b"\xC3\xA4", false),
    ];
    for (major, host, writable) in rows {
        let mut corbaloc = with_key(&rt, b"any \x00 key")?;
        let mut addresses = corbaloc.addresses.into_vec();
        addresses.push(Address {
            major,
            minor: 255,
            host: OctetList::from_slice(rt.alloc(), host)?,
            port: 65535,
        })?;
        corbaloc = Corbaloc {
            addresses: Sequence::from(addresses),
            key: corbaloc.key,
        };
        assert_eq!(rt; corbaloc.is_writable(), writable);
    }
    let none = Corbaloc {
        addresses: Sequence::new(rt.alloc()),
        key: OctetList::new(rt.alloc()),
    };
    assert!(rt; !none.is_writable());
    Ok(())
}

#[test]
fn faults_are_shown_with_their_names_and_places(rt: HostRuntime) -> Result<(), Fail> {
    let rows = [
        (CorbalocKind::BadPrefix, 1, "BadPrefix"),
        (CorbalocKind::BadProtocol, 2, "BadProtocol"),
        (CorbalocKind::BadHost, 3, "BadHost"),
        (CorbalocKind::BadPort, 4, "BadPort"),
        (CorbalocKind::BadVersion, 5, "BadVersion"),
        (CorbalocKind::BadEscape, 6, "BadEscape"),
        (CorbalocKind::BadChar, 7, "BadChar"),
        (CorbalocKind::NoMemory, 8, "NoMemory"),
    ];
    for (kind, number, name) in rows {
        let fault = CorbalocFault { at: 3, kind };
        assert_eq!(rt; (kind.number(), fault.number()), (number, number));
        assert_eq!(rt;
            format!(in rt.alloc(); "{kind}")?.as_bytes(),
            name.as_bytes()
        );
        assert_eq!(rt;
            format!(in rt.alloc(); "{fault}")?.as_bytes(),
            format!(in rt.alloc(); "{name} at 3")?.as_bytes()
        );
    }
    let fault = CorbalocFault {
        at: 1024,
        kind: CorbalocKind::BadHost,
    };
    assert_eq!(rt;
        format!(in rt.alloc(); "{fault}")?.as_str(),
        "BadHost at 1024"
    );
    Ok(())
}
