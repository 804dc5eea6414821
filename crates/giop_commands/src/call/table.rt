//! The lines of a client's table, in a form. Their text is specs/Table.antt, of the lines of
//! giop_lines.
ghost use Rattle.std.specs.Prelude.{◌≡◌, map, IfOk};
ghost use Rattle.std.specs.String.{string_bytes};
ghost use Rattle.giop_types.specs.Values.Views.{value_view};
ghost use Rattle.giop_msg.specs.Messages.Reply.{exception_in, listed, outs_of};
ghost use Rattle.giop_msg.specs.Messages.Request.{operation_asked};
ghost use Rattle.giop_types.specs.JsonForms.ValuesText.{values_text};
ghost use Rattle.giop_commands.specs.Bodies.{brought_by, brought_text};

use crate::form::{LineForm, line_text};
use crate::session::bodies::forward_text;
use crate::session::table::Tabled;
use giop_calls::{ClientEntry, ClientRule};
use giop_cdr::OctetList;
use giop_lines::{ClientEntryJson, ClientEntryLine};
use giop_msg::{ReplyBody, Request};
use giop_types::{Interface, NumberForm, Offer, Value, values_to_text};
use std::alloc::{AllocError, Global};

impl Tabled for ClientRule {
    ghost use Rattle.giop_commands.specs.Table.{client_entry_in};

    ghost line = { client_entry_in };

    fn entry_text(
        alloc: Global,
        lines: LineForm,
        interface: &Interface,
        id: u32,
        entry: &ClientEntry,
    ) -> Result<String, AllocError> {
        let brought = brought_text(alloc, lines.numbers(), interface, entry)?;
        let brought = brought.as_str();
        let (text, json) = (
            ClientEntryLine { id, entry, brought },
            ClientEntryJson { id, entry, brought },
        );
        line_text(alloc, lines, text, json)
    }
}

// What the Reply of an entry brought, as text; empty where the entry has none.
fn brought_text(
    alloc: Global,
    numbers: NumberForm,
    interface: &Interface,
    entry: &ClientEntry,
) -> Result<String, AllocError>
    ensures { IfOk result (λ text. string_bytes text ≡ brought_text numbers interface.now entry.now) }
{
    match entry {
        ClientEntry::Done { request, reply } => {
            brought_by(alloc, numbers, interface, request, &reply.body)
        }
        _ => Ok(String::new(alloc)),
    }
}

/// What a Reply to a Request brought, as text; empty where its status has no values.
pub fn brought_by(
    alloc: Global,
    numbers: NumberForm,
    interface: &Interface,
    request: &Request,
    body: &ReplyBody,
) -> Result<String, AllocError>
    ensures { IfOk result (λ text. string_bytes text
        ≡ brought_by numbers interface.now request.now body.now) }
{
    match body {
        ReplyBody::NoException(outs) => outs_text(
            alloc,
            numbers,
            interface,
            request,
            outs.as_slice(),
        ),
        ReplyBody::UserException { id, members } => {
            let offer = request.head.target.offer_in(interface);
            members_text(alloc, numbers, offer, id, members.as_slice())
        }
        ReplyBody::SystemException { .. } => Ok(String::new(alloc)),
        ReplyBody::Forward(ior) => forward_text(alloc, ior),
        ReplyBody::ForwardPerm(ior) => forward_text(alloc, ior),
        ReplyBody::NeedsAddressing(_) => Ok(String::new(alloc)),
    }
}

fn outs_text(
    alloc: Global,
    numbers: NumberForm,
    interface: &Interface,
    request: &Request,
    values: &[Value],
) -> Result<String, AllocError>
    ensures { IfOk result (λ text. string_bytes text ≡ values_text numbers
        (outs_of (operation_asked interface.now request.now.head))
        (map value_view values.now)) }
{
    match request.head.operation_asked(interface) {
        Some(operation) => values_to_text(alloc, numbers, operation.outs.as_slice(), values),
        None => values_to_text(alloc, numbers, &[], values),
    }
}

fn members_text(
    alloc: Global,
    numbers: NumberForm,
    offer: &Offer,
    id: &OctetList,
    values: &[Value],
) -> Result<String, AllocError>
    ensures { IfOk result (λ text. string_bytes text ≡ values_text numbers
        (listed (exception_in offer.now id.now)) (map value_view values.now)) }
{
    match offer.exception(id.as_slice()) {
        Some(members) => values_to_text(alloc, numbers, members.as_slice(), values),
        None => values_to_text(alloc, numbers, &[], values),
    }
}
