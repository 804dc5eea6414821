//! What an end puts out of a call or an answer behind its first piece (CORBA 3.3 Part 2, 9.4.9).
//! What an end's parts undergo is acts/in_pieces.rt.
ghost use Rattle.std.specs.Prelude.{◌≡◌, Some, None, Err, IsOk};
ghost use Rattle.giop_table.specs.CallTable.{entry_at};
ghost use Rattle.giop_end.specs.declared.session_fault.SessionFault.TheVariants.{NoMemory};
ghost use Rattle.giop_end.specs.Acts.InPieces.{PutsNext};
ghost use Rattle.giop_end.specs.Ends.View.{IsActedOn};

use crate::acts::in_pieces::{SendsPieces, send};
use crate::end::End;
use crate::session_fault::SessionFault;

impl<'a, R: SendsPieces> End<'a, R> {
    /// Puts out the next piece of the message of an id: of its call at a client's end, of the Reply
    /// to it at a server's.
    ///
    /// A failed end returns its fault. An id of which no piece is left is refused as
    /// `NothingToSend`. Else `NoMemory` is returned where it is out of memory. A refusal changes
    /// nothing.
    pub fn send(&mut self, id: u32) -> Result<(), SessionFault>
        ensures failed { (why : _) → self.old.fault ≡ Some why
            → (result ≡ Err why) × (self.new ≡ self.old) }
        ensures last { result ≡ Err NoMemory → self.old.fault ≡ None
            → IsOk (R.next self.old.calls.rule (entry_at self.old.calls id) R.sends).outcome }
        ensures sent { self.old.fault ≡ None → PutsNext R.Side R.sends id self.old.calls
            self.old.outgoing result self.new.calls self.new.outgoing }
        ensures others { IsActedOn self.old self.new }
    {
        if let Some(fault) = self.fault {
            return Err(fault);
        }
        send(&mut self.calls, &mut self.outgoing, id)
    }
}
