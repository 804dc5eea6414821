//! Files that are refused.
use giop_json::FormFault;
use giop_names::plain_interface;
use std::test::Fail;

// A file, and why it is refused.
const FILES: [(&str, FormFault); 9] = [
    ("{", FormFault::BadJson),
    (r#"{"id":1,"operations":{}}"#, FormFault::BadShape),
    (r#"{"comment":[],"operations":{}}"#, FormFault::BadShape),
    (r#"{"types":[],"operations":{}}"#, FormFault::BadShape),
    (
        r#"{"operations":{"f":{"comment":null}}}"#,
        FormFault::BadShape,
    ),
    // What is raised is a list of exceptions of the file.
    (
        r#"{"operations":{"f":{"raises":"E"}},"exceptions":{"E":[]}}"#,
        FormFault::BadShape,
    ),
    (
        r#"{"operations":{"f":{"raises":["E"]}}}"#,
        FormFault::BadShape,
    ),
    (
        r#"{"operations":{"f":{"raises":["F"]}},"exceptions":{"E":[]}}"#,
        FormFault::BadShape,
    ),
    (
        r#"{"operations":{"f":{"raises":[1]}},"exceptions":{"1":[]}}"#,
        FormFault::BadShape,
    ),
];

#[test]
fn other_forms_are_refused(rt: HostRuntime) -> Result<(), Fail> {
    for (file, fault) in FILES {
        let refused = plain_interface(rt.alloc(), file.as_bytes()).err();
        assert_eq!(rt; refused, Some(fault));
    }
    Ok(())
}

// Types by which the name A stands for nothing: there is none, or it stands in what it stands for.
const TYPES: [&str; 4] = [
    r#"{}"#,
    r#"{"B":"long"}"#,
    r#"{"A":{"sequence":{"type":"A"}}}"#,
    r#"{"A":{"type":"B"},"B":{"type":"A"}}"#,
];

#[test]
fn names_that_stand_for_nothing_are_refused(rt: HostRuntime) -> Result<(), Fail> {
    let alloc = rt.alloc();
    for types in TYPES {
        let file = format!(in alloc;
            r#"{{"types":{types},"operations":{{"f":{{"ins":[["a",{{"type":"A"}}]]}}}}}}"#
        )?;
        let refused = plain_interface(alloc, file.as_bytes()).err();
        assert_eq!(rt; refused, Some(FormFault::BadShape));
    }
    Ok(())
}
