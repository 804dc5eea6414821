//! Interfaces whose types have names, through the exported functions: docs/FORMATS.md.

use crate::interface_calls::{giop_interface_convert, giop_interface_new};
use crate::status::{FAULT, OK};
use crate::tests::server as servers;
use crate::{InterfaceHandle, TextFault};

const UNTOLD: TextFault = TextFault {
    number: 77,
    description: 77,
};

// An id, a comment, a type of two members, of which one is named itself, and what is raised.
const NAMED: &[u8] = b"{\"id\":\"IDL:P:1.0\",\"comment\":\"points\",\"types\":{\"Point\":\
{\"struct\":[[\"x\",{\"type\":\"Half\"}],[\"y\",\"octet\"]]},\"Half\":\"short\"},\"operations\":\
{\"move\":{\"ins\":[[\"to\",{\"type\":\"Point\"}]],\"raises\":[\"IDL:E:1.0\"]}},\"exceptions\":\
{\"IDL:E:1.0\":[]}}";

#[test]
fn the_types_of_an_interface_have_names(rt: HostRuntime) {
    let alloc = rt.alloc();
    let mut interface = InterfaceHandle::closed(alloc);
    let (mut told, mut fault) = (UNTOLD, servers::UNWRITTEN);
    assert_eq!(rt;
        giop_interface_new(alloc, &mut interface, NAMED, &mut told),
        OK
    );
    assert_eq!(rt; told, UNTOLD);
    let (mut buffer, mut size) = ([9; 4], 99);
    let status = giop_interface_convert(
        alloc,
        &mut interface,
        0,
        b"move",
        2,
        b"[{\"x\":258,\"y\":3}]",
        0,
        &mut buffer,
        &mut size,
        &mut fault,
    );
    assert_eq!(rt; (status, buffer, size), (OK, [1, 2, 3, 9], 3));
}

#[test]
fn a_name_that_no_type_has_is_of_another_form(rt: HostRuntime) {
    // 1 is BadJson, 2 BadShape: a name without a type, one that stands for itself, an exception
    // that isn't there
    let texts: [(&[u8], u32); 4] = [
        (b"{", 1),
        (
            b"{\"operations\":{\"f\":{\"ins\":[[\"a\",{\"type\":\"T\"}]]}}}",
            2,
        ),
        (
            b"{\"types\":{\"T\":{\"type\":\"T\"}},\"operations\":{\"f\":{\"ins\":\
[[\"a\",{\"type\":\"T\"}]]}}}",
            2,
        ),
        (b"{\"operations\":{\"f\":{\"raises\":[\"IDL:E:1.0\"]}}}", 2),
    ];
    let alloc = rt.alloc();
    for (text, number) in texts {
        let mut interface = InterfaceHandle::closed(alloc);
        let mut told = UNTOLD;
        assert_eq!(rt;
            giop_interface_new(alloc, &mut interface, text, &mut told),
            FAULT
        );
        let wanted = TextFault {
            number,
            description: 0,
        };
        assert_eq!(rt; told, wanted);
    }
}
