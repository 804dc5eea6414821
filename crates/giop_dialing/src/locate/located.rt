//! What a session of `locate --follow` came to.

use giop_commands::Endpoint;
use giop_show::status::Status;

/// What a session came to, by which the object was asked for.
#[derive(Drop)]
pub(crate) enum Located {
    /// The object is to be asked for there next.
    Elsewhere(Endpoint),
    /// What the session came to was told, and the command ends with this status.
    Told(Status),
}
