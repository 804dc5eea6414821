//! An interface that tests share. Calls and answers that are read, and those that are refused, are
//! cases of the built program (tests/cases/calls, answers, call_words, serving).
use giop_json::interface_from_json;
use giop_types::Interface;
use std::alloc::Global;
use std::test::Fail;

// Of ping (nothing), add (two longs, one out), list (longs) and tell (oneway, a string), and an
// exception Demo/Bad with a long.
const INTERFACE: &str = "{\"operations\":{\"ping\":{},\
    \"add\":{\"ins\":[[\"a\",\"long\"],[\"b\",\"long\"]],\"outs\":[[\"sum\",\"long\"]]},\
    \"list\":{\"ins\":[[\"items\",{\"sequence\":\"long\"}]]},\
    \"tell\":{\"oneway\":true,\"ins\":[[\"t\",\"string\"]]}},\
    \"exceptions\":{\"IDL:Demo/Bad:1.0\":[[\"code\",\"long\"]]}}";

pub fn interface(alloc: Global) -> Result<Interface, Fail> {
    match interface_from_json(alloc, INTERFACE.as_bytes()) {
        Ok(interface) => Ok(interface),
        Err(_) => Err(Fail::new("the interface is refused")),
    }
}
