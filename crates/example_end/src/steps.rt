//! Steps of the table that the rule accepts: what each leaves is known before it is taken.
ghost use Rattle.std.specs.Prelude.{◌≡◌, false, Some, IsSome};
ghost use Rattle.std.specs.Bool.{OnTrue, OnFalse};
ghost use Rattle.std.specs.FinMap as finite;
ghost use Rattle.giop_ids.specs.ById.{put};
ghost use Rattle.giop_mux.specs.Calls.{is_one_too_many};
ghost use Rattle.giop_frag.specs.Gathered.{octets_in};
ghost use Rattle.example_end.specs.Meter.{step_of};
ghost use Rattle.example_end.specs.End.{is_arriving};
ghost use Rattle.example_end.specs.declared.meter.Entry.TheVariants.{Arriving};

use crate::{Event, Meter};
use giop_cdr::Octets;
use giop_frag::Gather;
use giop_mux::Mux;

/// Begins a message where none comes and there is room, and returns whether it did. It fails only
/// where it is out of memory; then nothing changes.
pub fn open(mux: &mut Mux<Meter>, id: u32) -> bool
    requires apart { is_arriving (finite.get mux.old.entries id) ≡ false }
    ensures ok { OnTrue result (mux.new ≡ record mux.old {
      entries = put mux.old.entries id (Some Arriving);
    }) }
    ensures kept { OnFalse result (mux.new ≡ mux.old) }
{
    mux.apply(id, Event::Begin).is_ok()
}

/// Settles a message that comes by an event that is accepted then. It takes no memory.
pub fn settle(mux: &mut Mux<Meter>, id: u32, event: Event)
    requires comes { finite.get mux.old.entries id ≡ Some Arriving }
    requires accepted { (step_of (Some Arriving) event).outcome ≡ Ok tt }
    ensures { mux.new ≡ record mux.old {
      entries = put mux.old.entries id (step_of (Some Arriving) event).entry;
    } }
{
    let _ = mux.apply(id, event);
}

/// How many octets are gathered for the id.
pub fn count_of(gather: &Gather, id: u32) -> usize
    ensures { result ≡ octets_in (finite.get gather.now.lists id) }
{
    match gather.chain(id) {
        Some((_, chain)) => chain.len(),
        None => 0,
    }
}
