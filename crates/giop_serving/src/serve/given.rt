//! What `serve` takes beside a connection.
ghost use Rattle.giop_end.specs.Acts.Form.{IsForm};
ghost use Rattle.giop_commands.specs.Check.{AreLimits};

use crate::serve::answers::Answers;
use giop_end::{Form, Limits};
use giop_forms::LineForm;
use giop_types::Interface;

/// An object that is served.
#[derive(Clone, Copy)]
pub struct ServedObject<'a> {
    /// Its key.
    pub key: &'a [u8],
    /// What its operations are answered.
    pub answers: &'a Answers,
}

/// The objects that are served, how, within which limits, and how the calls are told.
#[derive(Clone, Copy)]
pub struct Serving<'a> {
    /// What the objects offer.
    pub interface: &'a Interface,
    /// The objects; of those of one key the first.
    pub objects: &'a [ServedObject<'a>],
    /// The form of what is sent.
    pub form: Form,
    /// What the end holds at most.
    pub limits: Limits,
    /// The form of the lines that tell the calls.
    pub lines: LineForm,
    ghost sent: { IsForm form },
    ghost bounded: { AreLimits limits },
}

/// How answers are sent.
#[derive(Clone, Copy)]
pub struct Sending {
    /// The form of what is sent.
    pub form: Form,
    /// What the end holds at most.
    pub limits: Limits,
    pub ghost sent: { IsForm form },
}
