//! The id of an interface.
use giop_names::interface_id;
use std::test::Fail;

#[test]
fn an_id_is_told_where_it_is_there(rt: HostRuntime) -> Result<(), Fail> {
    let alloc = rt.alloc();
    let id = interface_id(alloc, br#"{"id":"IDL:Calc:1.0","operations":{}}"#)?;
    assert_eq!(rt; id.as_deref(), Some("IDL:Calc:1.0"));
    let none = interface_id(alloc, br#"{"operations":{}}"#)?;
    assert!(rt; none.is_none());
    assert!(rt; interface_id(alloc, br#"{"id":1,"operations":{}}"#).is_err());
    Ok(())
}
