//! Calls that come as lines of JSON: octets are taken, and each line that ends is a call. Their
//! meaning is specs/Lines.antt: change both.
ghost use Rattle.std.specs.Prelude.{◌≡◌, ◌∷◌, ◌++◌, OnOk, []};
ghost use Rattle.giop_asked_calls.specs.Lines.{is_blank, is_space, is_spent, line_ended, none_taken, octet_taken, octets_taken, read_taken, so_far, text_ended, wants_more};

use crate::calls::{CallLine, call_from_json};
use giop_json::FormFault;
use giop_show::failure::Failure;
use giop_types::Interface;
use std::alloc::{AllocError, Global};
use std::collections::VecDeque;

/// What the octets of lines have brought.
#[derive(Debug, Drop)]
pub struct CallLines {
    /// The octets of the line that hasn't ended; where a line is refused, that line.
    pub line: Vec<u8>,
    /// The calls that aren't made yet.
    pub calls: VecDeque<CallLine>,
    /// How many lines have ended.
    pub count: u64,
    /// Why the last of them is refused, if it is.
    pub refused: Option<FormFault>,
    /// Whether the text is over.
    pub is_over: bool,
}

impl CallLines {
    /// No octet is taken yet.
    pub fn new(alloc: Global) -> CallLines
        ensures { so_far result ≡ none_taken }
    {
        CallLines {
            line: Vec::new(alloc),
            calls: VecDeque::new(alloc),
            count: 0,
            refused: None,
            is_over: false,
        }
    }

    /// Whether nothing more is read: the text is over, or a line is refused.
    pub fn is_spent(&self) -> bool
        ensures { result ≡ is_spent (so_far self.now) }
    {
        self.is_over || self.refused.is_some()
    }

    /// Whether more is to be read: no call is there, and the text goes on.
    pub fn wants_more(&self) -> bool
        ensures { result ≡ wants_more (so_far self.now) }
    {
        self.calls.is_empty() && !self.is_spent()
    }

    /// Takes what a read gave: octets, or none at the end of the text.
    pub fn take_read(
        &mut self,
        alloc: Global,
        interface: &Interface,
        piece: &[u8],
    ) -> Result<(), Failure>
        ensures { OnOk result
            (so_far self.new ≡ read_taken interface.now (so_far self.old) piece.now) }
    {
        if piece.is_empty() {
            self.end_text(alloc, interface)
        } else {
            self.take_octets(alloc, interface, piece)
        }
    }

    // The text is over: what stands behind the last newline is a line.
    fn end_text(&mut self, alloc: Global, interface: &Interface) -> Result<(), Failure>
        ensures { OnOk result (so_far self.new ≡ text_ended interface.now (so_far self.old)) }
    {
        self.end_line(alloc, interface)?;
        self.is_over = true;
        Ok(())
    }

    // Takes octets, one after the other.
    fn take_octets(
        &mut self,
        alloc: Global,
        interface: &Interface,
        octets: &[u8],
    ) -> Result<(), Failure>
        ensures { OnOk result
            (so_far self.new ≡ octets_taken interface.now (so_far self.old) octets.now) }
    {
        'octets: for octet in octets {
            self.take_octet(alloc, interface, *octet)?;
        }
        Ok(())
    }

    // Takes an octet. Behind a refused line nothing is taken.
    fn take_octet(&mut self, alloc: Global, interface: &Interface, octet: u8) -> Result<(), Failure>
        ensures { OnOk result
            (so_far self.new ≡ octet_taken interface.now (so_far self.old) octet) }
    {
        if self.refused.is_some() {
            return Ok(());
        }
        if octet == b'\n' {
            return self.end_line(alloc, interface);
        }
        Ok(self.hold(octet)?)
    }

    // An octet more of the line.
    fn hold(&mut self, octet: u8) -> Result<(), AllocError>
        ensures { OnOk result
            (so_far self.new ≡ record (so_far self.old) {
              line = self.old.line.items ++ octet ∷ [];
            }) }
    {
        self.line.push(octet)?;
        Ok(())
    }

    // A line has ended. One of white space alone has no call.
    fn end_line(&mut self, alloc: Global, interface: &Interface) -> Result<(), Failure>
        ensures { OnOk result (so_far self.new ≡ line_ended interface.now (so_far self.old)) }
    {
        if self.count == u64::MAX {
            return Err(Failure::TurnsSpent);
        }
        self.count += 1;
        if is_blank(self.line.as_slice()) {
            self.line.clear();
            return Ok(());
        }
        match call_from_json(alloc, interface, self.line.as_slice()) {
            Ok(call) => Ok(self.add(call)?),
            Err(FormFault::NoMemory) => Err(Failure::Memory),
            Err(fault) => {
                self.refused = Some(fault);
                Ok(())
            }
        }
    }

    // The line was this call.
    fn add(&mut self, call: CallLine) -> Result<(), AllocError>
        ensures { OnOk result (so_far self.new ≡ record (so_far self.old) {
          line = [];
          calls = self.old.calls.items ++ call ∷ [];
        }) }
    {
        self.calls.push_back(call)?;
        self.line.clear();
        Ok(())
    }
}

// Whether a line is of white space alone.
fn is_blank(line: &[u8]) -> bool
    ensures { result ≡ is_blank line.now }
{
    line.iter().all(|octet| is_space(*octet))
}

// Whether an octet is white space within a line.
fn is_space(octet: u8) -> bool
    ensures { result ≡ is_space octet }
{
    octet == b' ' || octet == b'\t' || octet == b'\r'
}
