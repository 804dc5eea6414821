//! Interfaces read from JSON. Those that are refused are cases of the built program
//! (tests/cases/interfaces).
use giop_types::Interface;
use std::test::Fail;

const J: &[u8] =
    b"{\"operations\":{\"ping\":{},\"add\":{\"ins\":[[\"a\",\"long\"],[\"b\",\"long\"]],\"outs\":[[\"sum\",\"long\"]]},\"list\":{\"ins\":[[\"items\",{\"sequence\":\"long\"}]]},\"tell\":{\"oneway\":true,\"ins\":[[\"t\",\"string\"]]}}}";

#[test]
fn an_interface_has_its_operations(rt: HostRuntime) -> Result<(), Fail> {
    let interface = Interface::from_json(rt.alloc(), J)?;
    let cases: [(&[u8], bool, usize, usize); 4] = [
        (b"ping", false, 0, 0),
        (b"add", false, 2, 1),
        (b"list", false, 1, 0),
        (b"tell", true, 1, 0),
    ];
    for (name, oneway, ins, outs) in cases {
        let Some(operation) = interface.operation(name) else {
            return Err(Fail::from("an operation is missing"));
        };
        assert_eq!(rt; operation.oneway, oneway);
        assert_eq!(rt; operation.ins.as_slice().len(), ins);
        assert_eq!(rt; operation.outs.as_slice().len(), outs);
    }
    assert!(rt; interface.operation(b"pong").is_none());
    assert!(rt; interface.exception(b"IDL:Full:1.0").is_none());
    assert_eq!(rt; interface.operations().len(), 4);
    assert_eq!(rt; interface.exceptions().len(), 0);
    Ok(())
}

#[test]
fn exceptions_may_have_no_members(rt: HostRuntime) -> Result<(), Fail> {
    let text =
        b"{\"operations\":{},\"exceptions\":{\"IDL:Full:1.0\":[],\"IDL:Bad:1.0\":[[\"why\",\"string\"]]}}";
    let interface = Interface::from_json(rt.alloc(), text)?;
    let Some(full) = interface.exception(b"IDL:Full:1.0") else {
        return Err(Fail::from("an exception is missing"));
    };
    assert_eq!(rt; full.as_slice().len(), 0);
    let Some(bad) = interface.exception(b"IDL:Bad:1.0") else {
        return Err(Fail::from("an exception is missing"));
    };
    assert_eq!(rt; bad.as_slice().len(), 1);
    Ok(())
}
