//! Each handle may go to another thread: the bound asks for the proof of each, so the check of this
//! library does. Nothing calls these.

use crate::{ClientHandle, FramerHandle, InterfaceHandle, ServerHandle};

// It takes only what may go to another thread.
fn crosses<T: Send>(_value: &T) {}

/// Takes each handle as what is `Send`.
pub fn handles_may_go_to_another_thread(
    framer: &FramerHandle,
    interface: &InterfaceHandle,
    server: &ServerHandle,
    client: &ClientHandle,
) {
    crosses(framer);
    crosses(interface);
    crosses(server);
    crosses(client);
}
