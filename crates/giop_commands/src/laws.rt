//! Laws of the text of an interface by which `check` goes, and of an end that failed. Each function's
//! contract is one of them; the bodies are empty, and no program calls them.
ghost use Rattle.std.specs.Prelude.{◌≡◌, [], Ok, Err, Some};
ghost use Rattle.std.specs.Io.KnownBytes.{Appends};
ghost use Rattle.giop_json.specs.DescFromJson.{json_in};
ghost use Rattle.giop_json.specs.InterfaceFromJson.{interface_told, interface_view};
ghost use Rattle.giop_calls.specs.declared.server.entry.ServerEntry.{ServerEntry};
ghost use Rattle.giop_calls.specs.declared.server.event.ServerEvent.TheVariants as event;
ghost use Rattle.giop_calls.specs.declared.server.rule.ServerRule.{ServerRule};
ghost use Rattle.giop_calls.specs.ServerTable.{is_closed, is_gathering, server_step};
ghost use Rattle.giop_table.specs.CallTable.{Held};
ghost use Rattle.giop_end.specs.Hearing.Heard.{in_call};
ghost use Rattle.giop_lines.specs.declared.refusal.RefusalLine.TheVariants.{Form};
ghost use Rattle.giop_show.specs.Forms.{ended, refused_in};
ghost use Rattle.giop_show.specs.declared.status.Status.TheVariants.{Refused};
ghost use Rattle.giop_commands.specs.Check.{ChecksKnown, ChecksText};
ghost use Rattle.giop_commands.specs.Session.Acts.{Outbox, SendsPiece};

/// The text of an interface is one, and a check goes by an interface of which the text tells all; or
/// it is none, and the fault of the text is all that is written, and refused.
pub fn texts_are_interfaces_or_refused()
    ensures interface { (text offer limits strict form octets old new status : _)
        → interface_told (json_in text) ≡ Ok offer
        → ChecksText text limits strict form octets old new status
        → (interface : _) × (interface_view interface ≡ offer) × (interface.objects.entries ≡ [])
        × ChecksKnown interface limits strict form octets old new status }
    ensures refused { (text e limits strict form octets old new status : _)
        → interface_told (json_in text) ≡ Err e
        → ChecksText text limits strict form octets old new status
        → (status ≡ Refused) × Appends old new (ended (refused_in form (Form e))) }
{}

/// A piece that a server's end is to put out which failed changes nothing, and its fault is returned.
pub fn failed_ends_send_nothing()
    ensures { (s : Outbox (Held ServerRule ServerEntry)) (why id result t : _)
        → SendsPiece (λ rule. server_step) (λ rule. is_closed) is_gathering in_call event.Send
        (Some why) id s result t
        → (result ≡ Err why) × (t ≡ s) }
{}
