//! The number and the name of each refusal, as `docs/PROFILE.md` lists them.
use giop_cdr::{CdrFault, CdrKind, EncodeFault};
use std::test::Fail;

#[test]
fn each_refusal_has_its_number_and_its_name(rt: HostRuntime) -> Result<(), Fail> {
    let alloc = rt.alloc();
    let rows = [
        (CdrKind::Short, 1, "Short"),
        (CdrKind::BadBoolean, 2, "BadBoolean"),
        (CdrKind::BadString, 3, "BadString"),
        (CdrKind::BadCount, 4, "BadCount"),
        (CdrKind::BadLabel, 5, "BadLabel"),
        (CdrKind::BadOrder, 6, "BadOrder"),
        (CdrKind::BoundPassed, 7, "BoundPassed"),
        (CdrKind::Trailing, 8, "Trailing"),
        (CdrKind::NoMemory, 9, "NoMemory"),
    ];
    for (kind, number, name) in rows {
        let fault = CdrFault { at: 3, kind };
        assert_eq!(rt; fault.number(), number);
        assert_eq!(rt; format!(in alloc; "{kind}")?.as_str(), name);
    }
    let fault = CdrFault {
        at: 1024,
        kind: CdrKind::BadCount,
    };
    assert_eq!(rt; format!(in alloc; "{fault}")?.as_str(), "BadCount at 1024");
    let rows = [
        (EncodeFault::Unfit, 1, "Unfit"),
        (EncodeFault::NoMemory, 2, "NoMemory"),
    ];
    for (fault, number, name) in rows {
        assert_eq!(rt; fault.number(), number);
        assert_eq!(rt; format!(in alloc; "{fault}")?.as_str(), name);
    }
    Ok(())
}
