//! How the messages of a file are told, in a form: their heads, and by an interface also the bodies
//! of Requests. Its meaning is specs/Dump/Bodies.antt: change both.
ghost use Rattle.std.specs.Prelude.{◌≡◌, ◌^◌, ◌<◌, ◌≤◌, length, option_copied, OnOk, Some};
ghost use Rattle.std.specs.Io.KnownBytes.{Appends};
ghost use Rattle.giop_dumping.specs.Dump.Bodies.{after_by, body_by, telling_by};

use crate::dump::bodies::{write_own, write_piece};
use crate::dump::joining::join;
use crate::dump::messages::write_message;
use giop_forms::LineForm;
use giop_frag::Gather;
use giop_msg::Msg;
use giop_show::failure::Failure;
use giop_show::form::write_ended;
use giop_types::Interface;
use std::alloc::Global;
use std::io::Write;

/// Tells the messages of a file, one after the other.
#[derive(Drop)]
pub struct Teller<'a> {
    alloc: Global,
    /// In which form they are told.
    pub form: LineForm,
    /// By what bodies are told, if they are.
    pub interface: Option<&'a Interface>,
    /// The Requests of which pieces are still to come.
    pub gather: Gather,
}

impl<'a> Teller<'a> {
    ghost use Rattle.giop_dumping.specs.Dump.Text.{no_lists};
    ghost use Rattle.giop_dumping.specs.Dump.Heads.{heads_alone};

    /// Tells heads alone. Nothing is gathered.
    pub fn of_heads(alloc: Global, form: LineForm) -> Teller<'a>
        ensures telling { telling_by (option_copied result.interface) result.form
            result.gather.limit ≡ heads_alone form }
        ensures lists { result.gather.lists ≡ no_lists }
    {
        Teller {
            alloc,
            form,
            interface: None,
            gather: Gather::new(alloc, 0),
        }
    }

    /// Tells heads and bodies, by an interface. No more octets of pieces are gathered than this.
    pub fn of_bodies(
        alloc: Global,
        interface: &'a Interface,
        gathered: usize,
        form: LineForm,
    ) -> Teller<'a>
        requires { gathered ≤ 2 ^ 62 }
        ensures telling { telling_by (option_copied result.interface) result.form
            result.gather.limit ≡ telling_by (Some interface.now) form gathered }
        ensures lists { result.gather.lists ≡ no_lists }
    {
        Teller {
            alloc,
            form,
            interface: Some(interface),
            gather: Gather::new(alloc, gathered),
        }
    }

    /// Writes what is told of the message that begins at this offset of the file.
    pub fn tell<W: Write>(
        &mut self,
        at: usize,
        message: &Msg,
        writer: &mut W,
    ) -> Result<(), Failure>
        requires { length message.now.payload < 2 ^ 32 }
        ensures text { OnOk result (Appends (W.contents writer.old) (W.contents writer.new)
            ((telling_by (option_copied self.old.interface) self.old.form
            self.old.gather.limit).lines self.old.gather.lists at message.now)) }
        ensures lists { OnOk result (self.new.gather.lists
            ≡ (telling_by (option_copied self.old.interface) self.old.form
            self.old.gather.limit).after self.old.gather.lists message.now) }
        ensures form { self.new.form ≡ self.old.form }
        ensures interface { option_copied self.new.interface
            ≡ option_copied self.old.interface }
        ensures limit { self.new.gather.limit ≡ self.old.gather.limit }
    {
        let form = self.form;
        write_message(form, at, message, writer)?;
        self.tell_body(message, writer)?;
        write_ended(form, writer)
    }

    // Writes what is told of the body of a message, where bodies are told.
    fn tell_body<W: Write>(&mut self, message: &Msg, writer: &mut W) -> Result<(), Failure>
        requires { length message.now.payload < 2 ^ 32 }
        ensures text { OnOk result (Appends (W.contents writer.old) (W.contents writer.new)
            (body_by (option_copied self.old.interface) self.old.form self.old.gather.limit
            self.old.gather.lists message.now)) }
        ensures lists { OnOk result (self.new.gather.lists
            ≡ after_by (option_copied self.old.interface) self.old.gather.limit
            self.old.gather.lists message.now) }
        ensures form { self.new.form ≡ self.old.form }
        ensures interface { option_copied self.new.interface
            ≡ option_copied self.old.interface }
        ensures limit { self.new.gather.limit ≡ self.old.gather.limit }
    {
        let Some(interface) = self.interface else {
            return Ok(());
        };
        write_own(self.alloc, interface, self.form, message, writer)?;
        let piece = join(&mut self.gather, message)?;
        write_piece(self.alloc, interface, self.form, &piece, writer)
    }
}
