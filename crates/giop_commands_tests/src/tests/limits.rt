//! The limits where none are given (docs/giopctl.md, Options): `ping` and `locate` have them too.
use giop_end::Limits;

#[test]
fn the_limits_by_default(rt: HostRuntime) {
    let limits = Limits::default();
    assert_eq!(rt;
        (limits.calls, limits.message, limits.gathered),
        (1024, 1_048_576, 8_388_608)
    );
}
