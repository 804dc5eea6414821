//! What an end that is apart from its interface puts out of a call or an answer behind its first
//! piece. What its parts undergo is acts/in_pieces.rt.
ghost use Rattle.std.specs.Prelude.{◌≡◌, Some, None, Err, IsOk};
ghost use Rattle.giop_table.specs.CallTable.{entry_at};
ghost use Rattle.giop_end.specs.declared.session_fault.SessionFault.TheVariants.{NoMemory};
ghost use Rattle.giop_end.specs.Acts.InPieces.{PutsNext};
ghost use Rattle.giop_end.specs.Ends.Detached.{IsActedOn};

use crate::acts::in_pieces::{SendsPieces, send};
use crate::end::Detached;
use crate::session_fault::SessionFault;

impl<R: SendsPieces> Detached<R> {
    /// Puts out the next piece of the message of an id, as `End::send`.
    pub fn send(&mut self, id: u32) -> Result<(), SessionFault>
        ensures failed { (why : _) → self.old.fault ≡ Some why
            → (result ≡ Err why) × (self.new ≡ self.old) }
        ensures last { result ≡ Err NoMemory → self.old.fault ≡ None
            → IsOk (R.next self.old.calls.rule (entry_at self.old.calls id) R.sends).outcome }
        ensures sent { self.old.fault ≡ None → PutsNext R.Side R.sends id self.old.calls
            self.old.outgoing result self.new.calls self.new.outgoing }
        ensures others { IsActedOn self.old self.new }
    {
        if let Some(fault) = self.fault {
            return Err(fault);
        }
        send(&mut self.calls, &mut self.outgoing, id)
    }
}
