// Laws of the table of a Request's head. Each function's contract is one of them; the bodies are empty,
// and no program calls these.
ghost use Rattle.std.specs.Prelude.{◌≡◌, ℕ, List, true};
ghost use Rattle.giop_cdr.specs.declared.order.Order.{Order};
ghost use Rattle.giop_cdr.specs.Output.{Output};
ghost use Rattle.giop_cdr.specs.Layout.{AreOctets};
ghost use Rattle.giop_cdr.specs.RoundTrip.{IsReadBack};
ghost use Rattle.giop_cdr.specs.Readers.{IsExact, Took, StandsAlone};
ghost use Rattle.giop_msg.specs.RequestHead.{Head, request_head};

/// A Request's head: what is read is what is spelled, field by field, and where nothing is spelled the
/// first refused field is answered. No spelling of a head begins another. Whatever octets spell fits,
/// and its numbers are in the ranges of their types: where a head doesn't fit, no octets spell it.
pub fn request_heads_are_spelled()
    ensures exact { IsExact (Took request_head.spells) request_head.refused request_head.read }
    ensures alone { StandsAlone request_head.spells }
    ensures fits { (order : Order) (at : ℕ) (head : Head) (octets : List ℕ) → AreOctets octets
        → request_head.spells order at head octets → (request_head.fits head ≡ true) × request_head.holds head }
{}

/// What `write` appends of a head spells it, and reading gives the head back and leaves what stands
/// behind it: in both orders, at every offset.
pub fn written_heads_are_read_back()
    ensures { (head : Head) (out : Output) → request_head.fits head ≡ true → request_head.holds head
        → IsReadBack request_head.spells request_head.read head out (request_head.written head out) }
{}
