//! Refused allocations: a reference or a corbaloc that is out of memory is left unread and
//! unwritten, and the same call succeeds later.
use giop_cdr::{CdrFault, CdrIn, CdrKind, CdrOut, EncodeFault, Order, SliceOctets};
use giop_ior::{
    CorbalocFault, CorbalocKind, IorTextFault, corbaloc_from_text, corbaloc_to_text, ior_from_text,
    ior_to_text, read_ior, write_ior,
};
use std::test::Fail;

// A reference of type `A`, and a profile of tag 7 with two octets; and its text.
const OCTETS: [u8; 22] = [
    0, 0, 0, 2, b'A', 0, 0, 0, 0, 0, 0, 1, 0, 0, 0, 7, 0, 0, 0, 2, 1, 2,
];

const TEXT: &[u8] = b"IOR:0000000000000002410000000000000100000007000000020102";

// What a step gives; of the same step once more, where memory was wanting.
fn again<T, E: Drop, F: FnMut() -> Result<T, E>>(mut step: F) -> Result<T, E>
    requires { F.IsAlwaysCallable step }
{
    match step() {
        Err(_) => step(),
        answer => answer,
    }
}

#[test]
fn a_reference_without_memory_is_left_unread_and_unwritten(rt: HostRuntime) -> Result<(), Fail> {
    let alloc = rt.alloc();
    let source = SliceOctets::new(&OCTETS);
    let mut input = CdrIn::new(&source, Order::Big, 0);
    let wanting = CdrFault {
        at: 0,
        kind: CdrKind::NoMemory,
    };
    let ior = match read_ior(alloc, &mut input) {
        Ok(ior) => ior,
        Err(fault) => {
            assert_eq!(rt; (fault, input.position()), (wanting, 0));
            read_ior(alloc, &mut input)?
        }
    };
    let mut out = CdrOut::new(alloc, Order::Big, 0);
    if let Err(fault) = write_ior(&mut out, &ior) {
        assert_eq!(rt; (fault, out.position()), (EncodeFault::NoMemory, 0));
        write_ior(&mut out, &ior)?;
    }
    assert_eq!(rt; out.as_slice(), OCTETS.as_slice());
    Ok(())
}

#[test]
fn texts_are_read_and_written_again(rt: HostRuntime) -> Result<(), Fail> {
    let alloc = rt.alloc();
    if let Err(fault) = ior_from_text(alloc, TEXT) {
        assert_eq!(rt; fault, IorTextFault::NoMemory);
    }
    let ior = again(|| ior_from_text(alloc, TEXT))?;
    assert_eq!(rt; again(|| ior_to_text(alloc, &ior))?.as_slice(), TEXT);
    let text = b"corbaloc:iiop:1.2@h:1,iiop:1.0@g:2/a%20b";
    if let Err(fault) = corbaloc_from_text(alloc, text) {
        let kind = CorbalocKind::NoMemory;
        assert_eq!(rt; fault, CorbalocFault { at: 0, kind });
    }
    let corbaloc = again(|| corbaloc_from_text(alloc, text))?;
    assert_eq!(rt;
        again(|| corbaloc_to_text(alloc, &corbaloc))?.as_slice(),
        text.as_slice()
    );
    assert_eq!(rt; again(|| corbaloc.to_ior(alloc))?.profiles.len(), 2);
    Ok(())
}
