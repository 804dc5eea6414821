//! Calls and answers that are read. Those that are refused are cases of the built program
//! (tests/cases/calls, answers).
use crate::commands::call::calls::calls_from_json;
use crate::commands::serve::answers::{AnswerGiven, answers_from_json};
use giop_types::Interface;
use std::alloc::Global;
use std::test::Fail;

// Of ping (nothing), add (two longs, one out), list (longs) and tell (oneway, a string), and an
// exception Demo/Bad with a long.
pub const INTERFACE: &str = "{\"operations\":{\"ping\":{},\
    \"add\":{\"ins\":[[\"a\",\"long\"],[\"b\",\"long\"]],\"outs\":[[\"sum\",\"long\"]]},\
    \"list\":{\"ins\":[[\"items\",{\"sequence\":\"long\"}]]},\
    \"tell\":{\"oneway\":true,\"ins\":[[\"t\",\"string\"]]}},\
    \"exceptions\":{\"IDL:Demo/Bad:1.0\":[[\"code\",\"long\"]]}}";

pub fn interface(alloc: Global) -> Result<Interface, Fail> {
    match Interface::from_json(alloc, INTERFACE.as_bytes()) {
        Ok(interface) => Ok(interface),
        Err(_) => Err(Fail::new("the interface is refused")),
    }
}

// How many calls a text lists, or its fault's number.
fn calls_in(alloc: Global, interface: &Interface, text: &str) -> Result<usize, u8> {
    match calls_from_json(alloc, interface, text.as_bytes()) {
        Ok(calls) => Ok(calls.len()),
        Err(fault) => Err(fault.number()),
    }
}

#[test]
fn calls_are_read(rt: HostRuntime) -> Result<(), Fail> {
    let rows: [(&str, Result<usize, u8>); 4] = [
        ("[]", Ok(0)),
        ("[{\"id\":1,\"operation\":\"add\",\"ins\":[2,5]}]", Ok(1)),
        (
            "[{\"ins\":[],\"operation\":\"ping\",\"id\":4294967295}]",
            Ok(1),
        ),
        (
            "[{\"id\":1,\"operation\":\"ping\",\"ins\":[]},\
            {\"id\":1,\"operation\":\"tell\",\"ins\":[\"x\"]}]",
            Ok(2),
        ),
    ];
    let interface = interface(rt.alloc())?;
    for (text, wanted) in rows {
        assert_eq!(rt; calls_in(rt.alloc(), &interface, text), wanted, "{text}");
    }
    Ok(())
}

#[test]
fn a_call_has_its_id_its_operation_and_its_values(rt: HostRuntime) -> Result<(), Fail> {
    let interface = interface(rt.alloc())?;
    let text = "[{\"id\":7,\"operation\":\"add\",\"ins\":[2,5]},\
        {\"id\":8,\"operation\":\"tell\",\"ins\":[\"x\"]}]";
    let Ok(calls) = calls_from_json(rt.alloc(), &interface, text.as_bytes()) else {
        return Err(Fail::new("the calls are refused"));
    };
    let wanted: [(u32, &str, bool, usize); 2] = [(7, "add", false, 2), (8, "tell", true, 1)];
    assert_eq!(rt; calls.len(), 2);
    for (call, (id, name, oneway, ins)) in calls.iter().zip(wanted) {
        assert_eq!(rt; call.id, id);
        assert_eq!(rt; call.operation.as_slice(), name.as_bytes());
        assert_eq!(rt; call.oneway, oneway);
        assert_eq!(rt; call.ins.len(), ins);
    }
    Ok(())
}

// The number of the fault of answers, 0 where they are some.
fn answers_in(alloc: Global, interface: &Interface, text: &str) -> u8 {
    match answers_from_json(alloc, interface, text.as_bytes()) {
        Ok(_answers) => 0,
        Err(fault) => fault.number(),
    }
}

#[test]
fn answers_are_read(rt: HostRuntime) -> Result<(), Fail> {
    let rows: [(&str, u8); 2] = [
        (
            "{\"ping\":{\"ok\":[]},\"add\":{\"ok\":[7]},\"list\":{\"ok\":[]}}",
            0,
        ),
        (
            "{\"ping\":{\"ok\":[]},\"add\":{\"user\":\"IDL:Demo/Bad:1.0\",\"members\":[3]},\
            \"list\":{\"ok\":[]}}",
            0,
        ),
    ];
    let interface = interface(rt.alloc())?;
    for (text, wanted) in rows {
        assert_eq!(rt; answers_in(rt.alloc(), &interface, text), wanted, "{text}");
    }
    Ok(())
}

// What is given for an operation: how many outs, or how many members of an exception.
fn given(alloc: Global, name: &str) -> Result<Option<(bool, usize)>, Fail> {
    let interface = interface(alloc)?;
    let text = "{\"ping\":{\"ok\":[]},\"add\":{\"user\":\"IDL:Demo/Bad:1.0\",\"members\":[3]},\
        \"list\":{\"ok\":[]}}";
    let Ok(answers) = answers_from_json(alloc, &interface, text.as_bytes()) else {
        return Err(Fail::new("the answers are refused"));
    };
    match answers.given(alloc, &interface, name.as_bytes()) {
        Ok(Some(AnswerGiven::Ok(outs))) => Ok(Some((true, outs.len()))),
        Ok(Some(AnswerGiven::User { members, .. })) => Ok(Some((false, members.len()))),
        Ok(None) => Ok(None),
        Err(_) => Err(Fail::new("what is given is refused")),
    }
}

#[test]
fn each_operation_has_what_is_given_for_it(rt: HostRuntime) -> Result<(), Fail> {
    assert_eq!(rt; given(rt.alloc(), "ping")?, Some((true, 0)));
    assert_eq!(rt; given(rt.alloc(), "add")?, Some((false, 1)));
    assert_eq!(rt; given(rt.alloc(), "tell")?, None);
    assert_eq!(rt; given(rt.alloc(), "pong")?, None);
    Ok(())
}
