//! What `call` takes beside its calls.
ghost use Rattle.giop_end.specs.Acts.Form.{IsForm};
ghost use Rattle.giop_commands.specs.Check.{AreLimits};

use giop_end::{Form, Limits};
use giop_forms::LineForm;
use giop_msg::Version;
use giop_types::Interface;

/// Whose operations are called, how, within which limits, and how the calls are told.
#[derive(Clone, Copy)]
pub struct Calling<'a> {
    /// The operations of the object.
    pub interface: &'a Interface,
    /// The key of the object.
    pub key: &'a [u8],
    /// The version of GIOP that is spoken.
    pub version: Version,
    /// The form of what is sent.
    pub form: Form,
    /// What the end holds at most.
    pub limits: Limits,
    /// The form of the lines that tell the calls.
    pub lines: LineForm,
    ghost sent: { IsForm form },
    ghost bounded: { AreLimits limits },
}
