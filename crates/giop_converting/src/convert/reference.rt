//! `convert ior` and `convert corbaloc` (CORBA 3.3 Part 2, 7.6.9 and 7.6.10.1). What they print is
//! `ConvertsIor` and `ConvertsCorbaloc` in specs/Convert.antt: change both.
ghost use Rattle.std.specs.Prelude.{◌≡◌, true, IfOk, OnOk, option_map};
ghost use Rattle.std.specs.Io.KnownBytes.{Appends};
ghost use Rattle.giop_ior.specs.Ior.{ior_layout};
ghost use Rattle.giop_converting.specs.Convert.{ConvertsIor, ConvertsCorbaloc, comma_in, corbaloc_in, profile_in, profiles_in, reference_in, text_of_corbaloc};
ghost use Rattle.giop_show.specs.Forms.{ended, line_in};
ghost use Rattle.giop_lines.specs.ConvertJson.{ior_json};

use crate::convert::write_line;
use giop_cdr::{CdrKind, EncodeFault};
use giop_forms::LineForm;
use giop_ior::{
    Corbaloc, CorbalocKind, Ior, TaggedProfile, corbaloc_from_text, corbaloc_to_text, iiop_view,
    ior_from_text, ior_to_text,
};
use giop_lines::{
    CorbalocJson, IiopJson, IiopLine, IorJson, ProfileJson, ProfileLine, RefusalLine, TypeJson,
    TypeLine,
};
use giop_show::failure::Failure;
use giop_show::form::{refuse_in, write_part};
use giop_show::status::Status;
use giop_show::{ior_refusal, unended};
use std::alloc::{AllocError, Global};
use std::io::Write;

/// Writes what the text of a reference says (CORBA 3.3 Part 2, 7.6.9), which a file's octets are,
/// in a form: its type id, each profile, and the text again; `Done`. In text each has a line, in
/// JSON all are one object. Where they are no such text, the line of its fault is written;
/// `Refused`.
pub fn convert_ior<W: Write>(
    alloc: Global,
    octets: &[u8],
    form: LineForm,
    writer: &mut W,
) -> Result<Status, Failure>
    ensures { IfOk result
        (ConvertsIor form octets.now (W.contents writer.old) (W.contents writer.new)) }
{
    match ior_from_text(alloc, unended(octets)) {
        Ok(ior) => {
            write_reference(alloc, &ior, form, writer)?;
            Ok(Status::Done)
        }
        Err(fault) => refuse_in(form, ior_refusal(fault)?, writer),
    }
}

// What is told of a reference.
fn write_reference<W: Write>(
    alloc: Global,
    ior: &Ior,
    form: LineForm,
    writer: &mut W,
) -> Result<(), Failure>
    requires { ior_layout.fits ior.now ≡ true }
    ensures { OnOk result (Appends (W.contents writer.old) (W.contents writer.new)
        (reference_in form ior.now)) }
{
    let text = match ior_to_text(alloc, ior) {
        Ok(text) => text,
        Err(EncodeFault::NoMemory) => return Err(Failure::Memory),
        Err(EncodeFault::Unfit) => unreachable!(),
    };
    let type_id = ior.type_id.as_slice();
    write_part(form, TypeLine(type_id), TypeJson(type_id), writer)?;
    write_profiles(alloc, ior.profiles.as_slice(), form, writer)?;
    write_text(text.as_slice(), form, writer)
}

// The text of a reference, behind its profiles.
fn write_text<W: Write>(text: &[u8], form: LineForm, writer: &mut W) -> Result<(), Failure>
    ensures { OnOk result (Appends (W.contents writer.old) (W.contents writer.new)
        (ended (line_in form text.now (ior_json text.now)))) }
{
    match form {
        LineForm::Text(_) => write_line(text, writer),
        LineForm::Json(_) => {
            writeln!(writer, "{}", IorJson(text))?;
            Ok(())
        }
    }
}

fn write_profiles<W: Write>(
    alloc: Global,
    profiles: &[TaggedProfile],
    form: LineForm,
    writer: &mut W,
) -> Result<(), Failure>
    ensures { OnOk result (Appends (W.contents writer.old) (W.contents writer.new)
        (profiles_in form true profiles.now)) }
{
    let mut first = true;
    for profile in profiles {
        write_comma(form, first, writer)?;
        write_profile(alloc, profile, form, writer)?;
        first = false;
    }
    Ok(())
}

// What stands before an item of a list in JSON, but before the first.
fn write_comma<W: Write>(form: LineForm, first: bool, writer: &mut W) -> Result<(), Failure>
    ensures { OnOk result (Appends (W.contents writer.old) (W.contents writer.new)
        (comma_in form first)) }
{
    match form {
        LineForm::Json(_) if !first => write!(writer, ",")?,
        _ => {}
    }
    Ok(())
}

// What is told of a profile.
fn write_profile<W: Write>(
    alloc: Global,
    profile: &TaggedProfile,
    form: LineForm,
    writer: &mut W,
) -> Result<(), Failure>
    ensures { OnOk result (Appends (W.contents writer.old) (W.contents writer.new)
        (profile_in form profile.now)) }
{
    if profile.tag != 0 {
        return write_part(form, ProfileLine(profile), ProfileJson(profile), writer);
    }
    if profile.octets.len() > 1 << 62 {
        return Err(Failure::Memory);
    }
    match iiop_view(alloc, profile) {
        Ok(view) => write_part(form, IiopLine(&view), IiopJson(&view), writer),
        Err(fault) => match fault.kind {
            CdrKind::NoMemory => Err(Failure::Memory),
            _ => write_part(form, ProfileLine(profile), ProfileJson(profile), writer),
        },
    }
}

/// Writes a corbaloc (7.6.10.1), which a file's octets are, in full, and the text of its reference,
/// in a form; `Done`. Where they are no corbaloc, the line of its fault is written, and where the
/// reference is too long for its counts `fault 1 Unfit`; `Refused`.
pub fn convert_corbaloc<W: Write>(
    alloc: Global,
    octets: &[u8],
    form: LineForm,
    writer: &mut W,
) -> Result<Status, Failure>
    ensures { IfOk result
        (ConvertsCorbaloc form octets.now (W.contents writer.old) (W.contents writer.new)) }
{
    let corbaloc = match corbaloc_from_text(alloc, unended(octets)) {
        Ok(corbaloc) => corbaloc,
        Err(fault) => match fault.kind {
            CorbalocKind::NoMemory => return Err(Failure::Memory),
            _ => return refuse_in(form, RefusalLine::Corbaloc(fault), writer),
        },
    };
    match text_of_corbaloc(alloc, &corbaloc)? {
        Some(text) => write_corbaloc(alloc, &corbaloc, text.as_slice(), form, writer),
        None => refuse_in(form, RefusalLine::Reference(EncodeFault::Unfit), writer),
    }
}

// The text of the reference of a corbaloc, where octets spell it.
fn text_of_corbaloc(alloc: Global, corbaloc: &Corbaloc) -> Result<Option<Vec<u8>>, AllocError>
    ensures { IfOk result
        (λ text. option_map (λ octets. octets.items) text ≡ text_of_corbaloc corbaloc.now) }
{
    let ior = match corbaloc.to_ior(alloc) {
        Ok(ior) => ior,
        Err(EncodeFault::Unfit) => return Ok(None),
        Err(EncodeFault::NoMemory) => return Err(AllocError),
    };
    match ior_to_text(alloc, &ior) {
        Ok(text) => Ok(Some(text)),
        Err(EncodeFault::Unfit) => Ok(None),
        Err(EncodeFault::NoMemory) => Err(AllocError),
    }
}

// What is told of a corbaloc.
fn write_corbaloc<W: Write>(
    alloc: Global,
    corbaloc: &Corbaloc,
    reference: &[u8],
    form: LineForm,
    writer: &mut W,
) -> Result<Status, Failure>
    ensures text { OnOk result (Appends (W.contents writer.old) (W.contents writer.new)
        (corbaloc_in form corbaloc.now reference.now)) }
    ensures ok { IfOk result (λ status. status ≡ Status.Done) }
{
    let text = corbaloc_to_text(alloc, corbaloc)?;
    let (corbaloc, ior) = (text.as_slice(), reference);
    match form {
        LineForm::Text(_) => {
            write_line(corbaloc, writer)?;
            write_line(ior, writer)?;
        }
        LineForm::Json(_) => writeln!(writer, "{}", CorbalocJson { corbaloc, ior })?,
    }
    Ok(Status::Done)
}
