//! The interface of the tests: `ping` without parameters, `add` with two longs in and one out,
//! `list` with a sequence of longs in, and `tell`, which is oneway, with a string in.
use giop_types::{FormFault, Interface};
use std::alloc::Global;

const J: &[u8] =
    b"{\"operations\":{\"ping\":{},\"add\":{\"ins\":[[\"a\",\"long\"],[\"b\",\"long\"]],\"outs\":[[\"sum\",\"long\"]]},\"list\":{\"ins\":[[\"items\",{\"sequence\":\"long\"}]]},\"tell\":{\"oneway\":true,\"ins\":[[\"t\",\"string\"]]}}}";

/// The interface; `NoMemory` where memory is wanting.
pub fn interface(alloc: Global) -> Result<Interface, FormFault> {
    Interface::from_json(alloc, J)
}
