//! `convert encode` and `convert decode`, by the text of a description. Its meaning is
//! `ConvertsValue` in specs/Convert.antt: change both.
ghost use Rattle.std.specs.Prelude.{IfOk};
ghost use Rattle.giop_converting.specs.Convert.{ConvertsValue};

use crate::convert::refuse;
use crate::convert::value::{convert_decode, convert_encode};
use giop_cdr::Order;
use giop_forms::Way;
use giop_json::desc_from_json;
use giop_show::failure::Failure;
use giop_show::form_refusal;
use giop_show::status::Status;
use std::alloc::Global;
use std::io::Write;

/// Converts a file's octets by a description in JSON, as `convert_encode` or `convert_decode` says.
/// Where the text is no description, the line of its fault is written, whatever the file holds;
/// `Refused`.
pub fn convert_value<W: Write>(
    alloc: Global,
    octets: &[u8],
    description: &[u8],
    way: Way,
    order: Order,
    writer: &mut W,
) -> Result<Status, Failure>
    ensures { IfOk result (ConvertsValue way order description.now octets.now
        (W.contents writer.old) (W.contents writer.new)) }
{
    let desc = match desc_from_json(alloc, description) {
        Ok(desc) => desc,
        Err(fault) => return refuse(form_refusal(fault)?, writer),
    };
    match way {
        Way::Encode => convert_encode(alloc, octets, &desc, order, writer),
        Way::Decode(numbers) => convert_decode(alloc, numbers, octets, &desc, order, writer),
    }
}
