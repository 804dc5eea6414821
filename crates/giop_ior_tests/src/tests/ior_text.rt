//! Each call on texts of references once, and what no text says. Texts that are read, and each fault,
//! are cases of the built program (tests/cases/ior).
use giop_cdr::{CdrFault, CdrKind, EncodeFault, OctetList};
use giop_ior::{Ior, IorTextFault, Sequence, ior_from_text, ior_to_text};
use std::test::Fail;

#[test]
fn a_text_says_a_type_id_and_profiles(rt: HostRuntime) -> Result<(), Fail> {
    let text = b"IOR:000000000000000a49444c3a413a312e30000000\
        000000010000000700000003aabbcc";
    let ior = ior_from_text(rt.alloc(), text)?;
    assert_eq!(rt; ior.type_id.as_slice(), b"IDL:A:1.0".as_slice());
    let profiles = ior.profiles.as_slice();
    assert_eq!(rt; profiles.len(), 1);
    assert_eq!(rt; profiles[0].tag, 7);
    assert_eq!(rt;
        profiles[0].octets.as_slice(),
        [0xAA, 0xBB, 0xCC].as_slice()
    );
    assert_eq!(rt; ior_to_text(rt.alloc(), &ior)?.as_slice(), text.as_slice());
    Ok(())
}

#[test]
fn a_type_id_with_a_null_has_no_text(rt: HostRuntime) -> Result<(), Fail> {
    let ior = Ior {
        type_id: OctetList::from_slice(rt.alloc(), b"a\x00b")?,
        profiles: Sequence::new(rt.alloc()),
    };
    match ior_to_text(rt.alloc(), &ior) {
        Ok(_) => return Err(Fail::from("written")),
        Err(fault) => assert_eq!(rt; fault, EncodeFault::Unfit),
    }
    Ok(())
}

#[test]
fn faults_of_texts_have_a_number_and_a_name(rt: HostRuntime) -> Result<(), Fail> {
    let short = CdrFault {
        at: 4,
        kind: CdrKind::Short,
    };
    let rows = [
        (IorTextFault::BadPrefix, 1, "BadPrefix"),
        (IorTextFault::BadHex, 2, "BadHex"),
        (IorTextFault::Cdr(short), 3, "Cdr"),
        (IorTextFault::NoMemory, 4, "NoMemory"),
    ];
    for (fault, number, name) in rows {
        assert_eq!(rt; fault.number(), number);
        assert_eq!(rt;
            format!(in rt.alloc(); "{fault}")?.as_bytes(),
            name.as_bytes()
        );
    }
    Ok(())
}
