//! How `locate` and `ping` ask an object: what each object offers, and how Requests are sent to it.
ghost use Rattle.std.specs.Prelude.{◌≡◌};
ghost use Rattle.giop_commands.specs.Check.{AreLimits};

use giop_calling::Calling;
use giop_cdr::Order;
use giop_commands::Endpoint;
use giop_end::{Form, Limits};
use giop_json::interface_from_json;
use giop_show::failure::Failure;
use giop_types::Interface;
use giop_words::ObjectWords;
use std::alloc::Global;

/// The operation by which a client asks whether an object is there (CORBA 3.3 Part 2, 9.4.2.1).
pub const NON_EXISTENT: &str = "_non_existent";

// The text of the interface that offers it alone.
const OFFERED: &[u8] =
    b"{\"operations\":{\"_non_existent\":{\"outs\":[[\"result\",\"boolean\"]]}}}";

/// What each object offers: the operation by which it is asked whether it is there.
pub(super) fn object_interface(alloc: Global) -> Result<Interface, Failure> {
    match interface_from_json(alloc, OFFERED) {
        Ok(interface) => Ok(interface),
        Err(_) => Err(Failure::Memory),
    }
}

/// How the object of an endpoint is asked.
pub fn calling_at<'a>(
    words: ObjectWords,
    interface: &'a Interface,
    endpoint: &'a Endpoint,
    limits: Limits,
) -> Calling<'a>
    requires { AreLimits limits }
    ensures interface { result.interface.now ≡ interface.now }
    ensures limits { result.limits ≡ limits }
{
    let order = match words.little {
        true => Order::Little,
        false => Order::Big,
    };
    Calling {
        interface,
        key: endpoint.key.as_slice(),
        version: endpoint.version,
        form: Form {
            order,
            piece: 4_096,
        },
        limits,
        lines: words.lines,
    }
}
