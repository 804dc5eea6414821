//! Files and their plain forms, in which keys ascend. What names stand for, and which files are refused,
//! are cases of the built program (tests/cases/named_types, interfaces).
use giop_names::plain_interface;
use std::test::Fail;

// A file, and its plain form.
const FILES: [(&str, &str); 7] = [
    // Files without names stay as they are.
    (r#"{"operations":{}}"#, r#"{"operations":{}}"#),
    (
        r#"{"operations":{"f":{"ins":[["a","long"]],"oneway":true}},"exceptions":{"E":[]}}"#,
        r#"{"exceptions":{"E":[]},"operations":{"f":{"ins":[["a","long"]],"oneway":true}}}"#,
    ),
    // So do names in exceptions, and what stands beside the plain form goes.
    (
        r#"{"types":{"A":"long"},"operations":{},"exceptions":{"E":[["why",{"type":"A"}]]}}"#,
        r#"{"exceptions":{"E":[["why","long"]]},"operations":{}}"#,
    ),
    (
        r#"{"id":"IDL:I:1.0","comment":"c","types":{},"operations":{}}"#,
        r#"{"operations":{}}"#,
    ),
    (
        r#"{"operations":{"f":{"raises":["E"],"comment":"c"}},"exceptions":{"E":[]}}"#,
        r#"{"exceptions":{"E":[]},"operations":{"f":{}}}"#,
    ),
    // Operations may be named as keys are.
    (
        r#"{"types":{},"operations":{"type":{},"id":{},"raises":{"comment":""}}}"#,
        r#"{"operations":{"id":{},"raises":{},"type":{}}}"#,
    ),
    // A key `type` beside another is no name.
    (
        r#"{"operations":{"f":{"ins":[["a",{"type":"A","x":1}]]}}}"#,
        r#"{"operations":{"f":{"ins":[["a",{"type":"A","x":1}]]}}}"#,
    ),
];

#[test]
fn what_is_beside_the_plain_form_is_left_out(rt: HostRuntime) -> Result<(), Fail> {
    for (file, plain) in FILES {
        let made = plain_interface(rt.alloc(), file.as_bytes())?;
        assert_eq!(rt; made.as_str(), plain);
    }
    Ok(())
}
