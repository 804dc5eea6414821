//! A reference that omniORB printed, read.
use giop_ior::{TaggedComponent, iiop_view, ior_from_text};
use std::test::Fail;

// What omniNames of omniORB 4.2.5 printed, started with
// -ORBendPointPublish giop:tcp:printer.example:2809,giop:tcp:printer2.example:2810
const ROOT_CONTEXT: &[u8] = b"IOR:010000002b00000049444c3a6f6d672e6f72672f436f734e616d696e67\
    2f4e616d696e67436f6e746578744578743a312e30000001000000000000009800000001010200100000007072\
    696e7465722e6578616d706c6500f90a00000b0000004e616d6553657276696365000400000000000000080000\
    000100000000545441010000001c00000001000000010001000100000001000105090101000100000009010100\
    030000001c00000001000000110000007072696e746572322e6578616d706c650000fa0a035454410800000\
    0c52a046b010059ef";

// The components that omniORB's catior tells of it: TAG_ORB_TYPE "ATT\x00"; TAG_CODE_SETS
// ISO-8859-1 and UTF-8, UTF-16 and UTF-16; TAG_ALTERNATE_IIOP_ADDRESS printer2.example 2810; and
// TAG_OMNIORB_PERSISTENT_ID 0xc52a046b010059ef. Their octets are little-endian encapsulations.
const COMPONENTS: [(u32, &[u8]); 4] = [
    (0, b"\x01\0\0\0\0TTA"),
    (
        1,
        b"\x01\0\0\0\x01\0\x01\0\x01\0\0\0\x01\0\x01\x05\x09\x01\x01\0\x01\0\0\0\x09\x01\x01\0",
    ),
    (3, b"\x01\0\0\0\x11\0\0\0printer2.example\0\0\xfa\x0a"),
    (0x41545403, b"\xc5\x2a\x04\x6b\x01\0\x59\xef"),
];

#[test]
fn a_reference_that_omniorb_printed_is_read(rt: HostRuntime) -> Result<(), Fail> {
    let ior = ior_from_text(rt.alloc(), ROOT_CONTEXT)?;
    assert_eq!(rt;
        ior.type_id.as_slice(),
        b"IDL:omg.org/CosNaming/NamingContextExt:1.0".as_slice()
    );
    let profiles = ior.profiles.into_vec();
    assert_eq!(rt; profiles.len(), 1);
    assert_eq!(rt; profiles[0].tag, 0);
    assert_eq!(rt; profiles[0].octets.len(), 0x98);
    if profiles[0].tag == 0 && profiles[0].octets.len() == 0x98 {
        let view = iiop_view(rt.alloc(), &profiles[0])?;
        assert_eq!(rt; (view.major, view.minor, view.port), (1, 2, 2809));
        assert_eq!(rt; view.host.as_slice(), b"printer.example".as_slice());
        assert_eq!(rt; view.key.as_slice(), b"NameService".as_slice());
        assert_eq!(rt; view.components.len(), COMPONENTS.len());
        for (component, known) in view.components.as_slice().iter().zip(COMPONENTS) {
            let TaggedComponent { tag, octets } = component;
            assert_eq!(rt; *tag, known.0);
            assert_eq!(rt; octets.as_slice(), known.1);
        }
    }
    Ok(())
}
