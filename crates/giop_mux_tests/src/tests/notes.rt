//! A small rule, whose entries own a text: a note is written, closed, and erased.
ghost use Rattle.std.specs.Prelude.{◌≡◌};

use giop_mux::{CallRule, Mux, Step};
use std::alloc::{AllocError, Global};
use std::fmt;

/// The rule of notes.
#[derive(Clone, Copy)]
pub struct Notes;

/// A note under an id.
#[derive(Debug, PartialEq, Eq, Drop)]
pub enum Note {
    Open(String),
    Closed(String),
}

/// What may befall a note.
#[derive(Debug, PartialEq, Eq, Drop)]
pub enum Event {
    /// A note with this text, in place of one that is there.
    Write(String),
    /// The note is closed; refused where none is open.
    Close,
    /// The note goes, if there is one.
    Erase,
}

#[derive(Clone, Copy, Debug, PartialEq, Eq)]
pub enum Answer {
    Written,
    Closed,
    Erased,
}

#[derive(Clone, Copy, Debug, PartialEq, Eq)]
pub struct NotOpen;

impl fmt::Display for NotOpen {
    fn fmt<W: fmt::Write>(&self, f: &mut fmt::Formatter<W>) -> fmt::Result {
        f.write_str("the note isn't open")
    }
}

impl CallRule for Notes {
    ghost use Rattle.std.specs.Prelude.{Option, Some, None, Result, Ok, Err, Bool, true, false, ◌≡◌, IsErr, refl};
    ghost use Rattle.giop_mux.specs.declared.step.Step.{Step};
    ghost use Rattle.giop_mux_tests.specs.declared.tests.notes.Note.{Note};
    ghost use Rattle.giop_mux_tests.specs.declared.tests.notes.Note.TheVariants.{Open, Closed};
    ghost use Rattle.giop_mux_tests.specs.declared.tests.notes.Event.{Event};
    ghost use Rattle.giop_mux_tests.specs.declared.tests.notes.Event.TheVariants.{Write, Close, Erase};
    ghost use Rattle.giop_mux_tests.specs.declared.tests.notes.Answer.TheVariants as answer;
    ghost use Rattle.giop_mux.specs.Faults.{no_fault};

    type Entry = Note;

    type Event = Event;

    type Answer = Answer;

    type Fault = NotOpen;

    ghost next = { λ rule entry event. elim event [
      | Write text ↦ record { entry = Some (Open text); outcome = Ok answer.Written }
      | Close ↦ elim entry [
        | None ↦ record { entry = None; outcome = Err (record {}) }
        | Some note ↦ elim note [
          | Open text ↦ record { entry = Some (Closed text); outcome = Ok answer.Closed }
          | Closed text ↦ record { entry = Some (Closed text); outcome = Err (record {}) }
        ]
      ]
      | Erase ↦ record { entry = None; outcome = Ok answer.Erased }
    ] };

    ghost closed = { λ rule note. elim note [ Open text ↦ false | Closed text ↦ true ] };

    ghost fault_keeps = { λ rule. elim [
      | None ↦ elim [
        | Write text ↦ λ fault. no_fault fault
        | Close ↦ λ fault. refl
        | Erase ↦ λ fault. no_fault fault
      ]
      | Some (Open old) ↦ elim [
        | Write text ↦ λ fault. no_fault fault
        | Close ↦ λ fault. no_fault fault
        | Erase ↦ λ fault. no_fault fault
      ]
      | Some (Closed old) ↦ elim [
        | Write text ↦ λ fault. no_fault fault
        | Close ↦ λ fault. refl
        | Erase ↦ λ fault. no_fault fault
      ]
    ] };

    fn step(&self, entry: Option<Note>, event: Event) -> Step<Note, Answer, NotOpen>
        ensures { result ≡ ⟦<Notes as CallRule>⟧.next self.now entry event }
    {
        match event {
            Event::Write(text) => Step {
                entry: Some(Note::Open(text)),
                outcome: Ok(Answer::Written),
            },
            Event::Close => close(entry),
            Event::Erase => Step {
                entry: None,
                outcome: Ok(Answer::Erased),
            },
        }
    }

    fn is_closed(&self, entry: &Note) -> bool {
        match entry {
            Note::Open(_) => false,
            Note::Closed(_) => true,
        }
    }
}

fn close(entry: Option<Note>) -> Step<Note, Answer, NotOpen>
    ensures { result ≡ ⟦<Notes as CallRule>⟧.next (record {}) entry Event.Close }
{
    match entry {
        Some(Note::Open(text)) => Step {
            entry: Some(Note::Closed(text)),
            outcome: Ok(Answer::Closed),
        },
        entry => Step {
            entry,
            outcome: Err(NotOpen),
        },
    }
}

/// A text of its own.
pub fn text(alloc: Global, text: &str) -> Result<String, AllocError> {
    String::from_str(alloc, text)
}

/// Whether an open note with this text stands under the id.
pub fn has_open(mux: &Mux<Notes>, id: u32, word: &str) -> bool {
    match mux.entry(id) {
        Some(Note::Open(text)) => text.as_str() == word,
        _ => false,
    }
}

/// Whether a closed note with this text stands under the id.
pub fn has_closed(mux: &Mux<Notes>, id: u32, word: &str) -> bool {
    match mux.entry(id) {
        Some(Note::Closed(text)) => text.as_str() == word,
        _ => false,
    }
}
