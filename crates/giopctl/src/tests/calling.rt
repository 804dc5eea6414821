//! One call over memory. What is sent and printed for other calls is cases of the built program
//! (tests/cases/calling).
use crate::commands::call::calls::{CallLine, calls_from_json};
use crate::commands::call_session;
use crate::status::Status;
use crate::tests::session_files::interface;
use giop_cdr::Order;
use giop_msg::Version;
use giop_session::Form;
use giop_types::Interface;
use std::alloc::Global;
use std::process::Abort;
use std::test::Fail;

const KEY: &[u8] = b"k";

fn calls(alloc: Global, interface: &Interface, text: &str) -> Result<Vec<CallLine>, Fail> {
    match calls_from_json(alloc, interface, text.as_bytes()) {
        Ok(calls) => Ok(calls),
        Err(_) => Err(Fail::new("the calls are refused")),
    }
}

// The calls, the version and the size of pieces; what is read and what is written; what is printed,
// and the status.
type Row = (
    &'static str,
    Version,
    u32,
    &'static str,
    &'static str,
    &'static str,
    Status,
);

fn check(rt: &(impl Abort + AllocGlobal), row: Row) -> Result<(), Fail> {
    let (asked, version, piece, read, wanted, text, status) = row;
    let alloc = rt.alloc();
    let interface = interface(alloc)?;
    let order = Order::Big;
    let form = Form { order, piece };
    if !form.is_valid() {
        return Err(Fail::new("the form is none"));
    }
    let octets = hex::decode(alloc, read)?;
    let wanted = hex::decode(alloc, wanted)?;
    let mut reader = octets.as_slice();
    let mut written: Vec<u8> = Vec::new(alloc);
    let mut out: Vec<u8> = Vec::new(alloc);
    let ended = call_session(
        alloc,
        &interface,
        calls(alloc, &interface, asked)?,
        KEY,
        version,
        form,
        &mut reader,
        &mut written,
        &mut out,
    );
    assert_eq!(rt; out.as_slice(), text.as_bytes(), "{asked}");
    assert_eq!(rt; written.as_slice(), wanted.as_slice(), "{asked}");
    assert_eq!(rt; ended, status, "{asked}");
    Ok(())
}

const CALLED: [Row; 1] = [
    // add with 2 and 5 is 7.
    (
        "[{\"id\":1,\"operation\":\"add\",\"ins\":[2,5]}]",
        Version::V12,
        4096,
        "47494F50010200010000001000000001000000000000000000000007",
        "47494F50010200000000002C000000010300000000000000000000016B00000000000004\
        6164640000000000000000000000000200000005",
        "1 Done 0 [7]\n",
        Status::Done,
    ),
];

#[test]
fn calls_are_sent_and_their_replies_are_shown(rt: HostRuntime) -> Result<(), Fail> {
    for row in CALLED {
        check(&rt, row)?;
    }
    Ok(())
}
