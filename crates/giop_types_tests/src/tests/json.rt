//! A value that is read from JSON and written again, each allocation refused in turn. Values of each
//! form, and each refusal, are cases of the built program (tests/cases/values, descriptions, nesting).
use giop_json::{
    NumberForm, desc_from_json, reference_desc, value_from_json, value_to_json, value_to_json_in,
};
use serde_json::Value as Json;
use std::test::Fail;

// A sequence, a number that is a text where that is asked for, and a union whose discriminant is one.
const DESC: &[u8] = b"{\"struct\":[[\"a\",{\"sequence\":\"long\"}],[\"b\",\"longlong\"],\
    [\"c\",{\"union\":\"longlong\",\"cases\":[[[1],\"a\",\"octet\"]]}]]}";

const NUMBERS: &str =
    "{\"a\":[1,-2],\"b\":9007199254740992,\"c\":{\"disc\":9007199254740993,\"value\":null}}";

const TEXTS: &str =
    "{\"a\":[1,-2],\"b\":\"9007199254740992\",\"c\":{\"disc\":\"9007199254740993\",\"value\":null}}";

#[test]
fn a_value_is_read_and_written_again(rt: HostRuntime) -> Result<(), Fail> {
    let alloc = rt.alloc();
    let desc = desc_from_json(alloc, DESC)?;
    for text in [NUMBERS, TEXTS] {
        let value = value_from_json(alloc, &desc, &Json::from_str(alloc, text)?)?;
        let numbers = value_to_json(alloc, &desc, &value)?;
        assert_eq!(rt; numbers.to_string(alloc)?.as_str(), NUMBERS);
        let texts = value_to_json_in(alloc, NumberForm::Quoted, &desc, &value)?;
        assert_eq!(rt; texts.to_string(alloc)?.as_str(), TEXTS);
    }
    Ok(())
}

#[test]
fn the_description_of_a_reference_is_its_name(rt: HostRuntime) -> Result<(), Fail> {
    let alloc = rt.alloc();
    let named = desc_from_json(alloc, b"\"reference\"")?;
    assert!(rt; *named.desc() == reference_desc(alloc)?);
    Ok(())
}
