//! The handles may go to another thread: the bound asks for the proof of each.

use crate::{ClientHandle, FramerHandle, InterfaceHandle, ServerHandle};

// It takes only what may go to another thread.
fn crosses<T: Send>(_value: &T) -> bool {
    true
}

#[test]
fn handles_may_go_to_another_thread(rt: HostRuntime) {
    let alloc = rt.alloc();
    let framer = FramerHandle::closed(alloc);
    assert!(rt; crosses(&framer));
    let interface = InterfaceHandle::closed(alloc);
    assert!(rt; crosses(&interface));
    let server = ServerHandle::closed(alloc);
    assert!(rt; crosses(&server));
    let client = ClientHandle::closed(alloc);
    assert!(rt; crosses(&client));
}
