//! Where the calls of `call` stand: in a file or in words.
ghost use Rattle.std.specs.Prelude.{IfErr};
ghost use Rattle.giop_connections.specs.Carried.{IsCarriedOut};

use crate::call::Object;
use giop_asked_calls::calls::{CallLine, calls_from_json};
use giop_asked_calls::words::call_from_words;
use giop_at_fault::calls::{each_json, of_calls, of_words};
use giop_files::files::FileFront;
use giop_files::files::interfaces::Offered;
use giop_files::report::refusals::{refuse_form, refuse_words};
use giop_files::{files, report};
use giop_json::{FormFault, interface_from_json};
use giop_show::failure::Failure;
use giop_show::status::Status;
use giop_words::{CallWords, Telling};
use std::io::ErrorKind;

/// Where the calls stand.
#[derive(Drop)]
pub enum Asked {
    /// In the lines of a file, which are read as they are called.
    Lines(FileFront),
    /// In what is given at once.
    Given(Given),
}

/// Where calls stand that are given at once.
#[derive(Drop)]
pub enum Given {
    /// In a file of this text.
    File(Vec<u8>),
    /// In words: an operation, and the values of its ins.
    Words,
}

/// Where the calls stand, or the status where their file can't be read, which is reported. One word
/// is the name of a file, unless there is none and one of these interfaces has an operation of that
/// name.
#[tactic(auto, using(giop_connections::proofs::CarriedLemmas::failure_carried))]
pub(super) fn asked_in(
    rt: &HostRuntime,
    words: &CallWords<'_>,
    offered: &[Offered<'_>],
) -> Result<Asked, Status>
    ensures { IfErr result IsCarriedOut }
{
    if !words.values.is_empty() {
        return Ok(Asked::Given(Given::Words));
    }
    let failure = match file_of(rt, words) {
        Ok(asked) => return Ok(asked),
        Err(failure) => failure,
    };
    match offers(rt, offered, words.file) {
        Ok(offered) if offered && is_missing(&failure) => Ok(Asked::Given(Given::Words)),
        Ok(_) => Err(report::status_of(rt, words.file, Err(failure))),
        Err(memory) => Err(report::status_of(rt, words.file, Err(memory))),
    }
}

// The calls of a file. Of a stream it is read whole only where it begins as a list does.
fn file_of(rt: &HostRuntime, words: &CallWords<'_>) -> Result<Asked, Failure> {
    if words.telling == Telling::AtTheEnd {
        return Ok(Asked::Given(Given::File(files::read(rt, words.file)?)));
    }
    let file = files::front_of(rt, words.file)?;
    if file.is_list() {
        Ok(Asked::Given(Given::File(file.whole()?)))
    } else {
        Ok(Asked::Lines(file))
    }
}

// Whether a file can't be read since there is none.
fn is_missing(failure: &Failure) -> bool {
    match failure {
        Failure::Input(error) => error.kind() == ErrorKind::NotFound,
        _ => false,
    }
}

// Whether one of these texts is an interface that has an operation of this name.
fn offers(rt: &HostRuntime, offered: &[Offered<'_>], name: &str) -> Result<bool, Failure> {
    for one in offered {
        match interface_from_json(rt.alloc(), one.text.as_slice()) {
            Ok(interface) if interface.operation(name.as_bytes()).is_some() => return Ok(true),
            Err(FormFault::NoMemory) => return Err(Failure::Memory),
            _ => {}
        }
    }
    Ok(false)
}

/// The calls that are given, or the status where they are refused, which is reported.
pub(super) fn calls_given(
    rt: &HostRuntime,
    words: &CallWords<'_>,
    object: Object<'_>,
    given: &Given,
) -> Result<Vec<CallLine>, Status>
    ensures { IfErr result IsCarriedOut }
{
    match given {
        Given::File(text) => calls_in_file(rt, words, object, text.as_slice()),
        Given::Words => calls_in_words(rt, words, object),
    }
}

// The calls of a file, or the status where they are refused, which is reported.
#[tactic(auto, using(giop_connections::proofs::CarriedLemmas::refused_carried))]
fn calls_in_file(
    rt: &HostRuntime,
    words: &CallWords<'_>,
    object: Object<'_>,
    text: &[u8],
) -> Result<Vec<CallLine>, Status>
    ensures { IfErr result IsCarriedOut }
{
    match calls_from_json(rt.alloc(), object.interface, text) {
        Ok(calls) => Ok(calls),
        Err(fault) => {
            let at = of_calls(rt.alloc(), object.text, text, fault);
            Err(refuse_form(rt, words.lines, words.file, text, fault, at))
        }
    }
}

// The call that words ask for, or the status where it is refused, which is reported.
#[tactic(auto, using(giop_connections::proofs::CarriedLemmas::refused_carried))]
fn calls_in_words(
    rt: &HostRuntime,
    words: &CallWords<'_>,
    object: Object<'_>,
) -> Result<Vec<CallLine>, Status>
    ensures { IfErr result IsCarriedOut }
{
    let (name, values) = (words.file, words.values.as_slice());
    let calls = match each_json(rt.alloc(), values) {
        Ok(ins) => call_from_words(rt.alloc(), object.interface, name, ins),
        Err(fault) => Err(fault),
    };
    match calls {
        Ok(calls) => Ok(calls),
        Err(fault) => {
            let at = of_words(rt.alloc(), object.text, name, values, fault);
            Err(refuse_words(rt, words.lines, name, values, fault, at))
        }
    }
}
