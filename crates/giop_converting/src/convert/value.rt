//! `convert encode` and `convert decode` (CORBA 3.3 Part 2, 9.3). What they print is
//! `ConvertsEncode` and `ConvertsDecode` in specs/Convert.antt: change both.
ghost use Rattle.std.specs.Prelude.{◌≡◌, ◌⊎◌, [], true, Ok, Some, IfOk, IfErr};
ghost use Rattle.std.specs.String.{string_bytes};
ghost use Rattle.serde_json.specs.Data.{Data};
ghost use Rattle.serde_json.specs.Written.{compact_text};
ghost use Rattle.giop_cdr.specs.declared.fault.CdrKind.TheVariants.{NoMemory as octets_no_memory};
ghost use Rattle.giop_cdr.specs.Reading.Cursor.{Cursor};
ghost use Rattle.giop_json.specs.declared.form_fault.FormFault.TheVariants.{NoMemory};
ghost use Rattle.giop_types.specs.Descriptions.CheckedShape.{checked_shape};
ghost use Rattle.giop_types.specs.Coding.Decoding.{decode_at};
ghost use Rattle.giop_json.specs.DescFromJson.{json_in};
ghost use Rattle.giop_types.specs.Values.Fits.{fits};
ghost use Rattle.giop_json.specs.FromJson.{from_data};
ghost use Rattle.giop_json.specs.ToJson.{to_data};
ghost use Rattle.giop_types.specs.Values.Views.{value_view};
ghost use Rattle.giop_converting.specs.Convert.{ConvertsEncode, ConvertsDecode, RefusedForm, RefusedOctets, value_octets, reader_of};

use crate::convert::{refuse, write_line};
use giop_cdr::{CdrFault, CdrIn, CdrKind, CdrOut, EncodeFault, Order, SliceOctets};
use giop_json::{FormFault, NumberForm, parse_json, value_from_json, value_to_json_in};
use giop_lines::RefusalLine;
use giop_show::failure::Failure;
use giop_show::status::Status;
use giop_show::{form_refusal, unended};
use giop_types::{CheckedDesc, Value, decode, encode};
use hex::FromHexError;
use std::alloc::{AllocError, Global};
use std::io::Write;

/// Writes the octets of a value from offset 0 on, in lower-case hexadecimal, where a file's octets
/// are the value in JSON; `Done`. Where they are no value of the description, the line of the fault
/// is written; `Refused`.
pub fn convert_encode<W: Write>(
    alloc: Global,
    octets: &[u8],
    desc: &CheckedDesc,
    order: Order,
    writer: &mut W,
) -> Result<Status, Failure>
    ensures { IfOk result (ConvertsEncode (checked_shape desc.now) order octets.now
        (W.contents writer.old) (W.contents writer.new)) }
{
    match value_of_text(alloc, unended(octets), desc) {
        Ok(value) => {
            let octets = octets_of_value(alloc, &value, desc, order)?;
            let digits = hex::encode(alloc, octets.as_slice())?;
            write_line(digits.as_bytes(), writer)?;
            Ok(Status::Done)
        }
        Err(fault) => refuse(form_refusal(fault)?, writer),
    }
}

// The value that a JSON text is.
fn value_of_text(alloc: Global, text: &[u8], desc: &CheckedDesc) -> Result<Value, FormFault>
    ensures value { IfOk result (λ value. (d : Data) × (json_in text.now ≡ Some d)
        × (from_data (checked_shape desc.now) d ≡ Ok (value_view value))) }
    ensures fits { IfOk result (λ value. fits (checked_shape desc.now) (value_view value) ≡ true) }
    ensures err { IfErr result (λ e. RefusedForm (checked_shape desc.now) text.now e
        ⊎ (e ≡ NoMemory)) }
{
    let json = parse_json(alloc, text)?;
    value_from_json(alloc, desc, &json)
}

// What is written of a value that fits.
fn octets_of_value(
    alloc: Global,
    value: &Value,
    desc: &CheckedDesc,
    order: Order,
) -> Result<Vec<u8>, AllocError>
    requires { fits (checked_shape desc.now) (value_view value.now) ≡ true }
    ensures { IfOk result (λ octets. octets.items
        ≡ value_octets (checked_shape desc.now) order (value_view value.now)) }
{
    let mut out = CdrOut::new(alloc, order, 0);
    match encode(&mut out, desc, value) {
        Ok(()) => Ok(out.into_bytes()),
        Err(EncodeFault::NoMemory) => Err(AllocError),
        Err(EncodeFault::Unfit) => unreachable!(),
    }
}

/// Writes a value in JSON, its whole numbers in a form, whose octets from offset 0 on a file has in
/// hexadecimal; `Done`. Where the file is no hexadecimal text, or its octets are no value of the
/// description, or octets are left behind it, the line of the fault is written; `Refused`.
pub fn convert_decode<W: Write>(
    alloc: Global,
    numbers: NumberForm,
    octets: &[u8],
    desc: &CheckedDesc,
    order: Order,
    writer: &mut W,
) -> Result<Status, Failure>
    ensures { IfOk result (ConvertsDecode numbers (checked_shape desc.now) order octets.now
        (W.contents writer.old) (W.contents writer.new)) }
{
    let said = match hex::decode(alloc, unended(octets)) {
        Ok(said) => said,
        Err(FromHexError::OutOfMemory) => return Err(Failure::Memory),
        Err(_) => return refuse(RefusalLine::BadHex, writer),
    };
    let fault = match value_of_octets(alloc, said.as_slice(), desc, order) {
        Ok(value) => {
            let text = text_of_value(alloc, numbers, &value, desc)?;
            write_line(text.as_bytes(), writer)?;
            return Ok(Status::Done);
        }
        Err(fault) => fault,
    };
    if fault.kind == CdrKind::NoMemory {
        return Err(Failure::Memory);
    }
    refuse(RefusalLine::Octets(fault), writer)
}

// The value that octets are, with none behind it.
fn value_of_octets(
    alloc: Global,
    octets: &[u8],
    desc: &CheckedDesc,
    order: Order,
) -> Result<Value, CdrFault>
    ensures value { IfOk result (λ value. (after : Cursor)
        × (decode_at (checked_shape desc.now) (reader_of order octets.now)
        ≡ Ok (value_view value, after)) × (after.rest ≡ [])) }
    ensures fits { IfOk result (λ value. fits (checked_shape desc.now) (value_view value) ≡ true) }
    ensures err { IfErr result (λ e. RefusedOctets (checked_shape desc.now) order octets.now e
        ⊎ (e.kind ≡ octets_no_memory)) }
{
    if octets.len() > 1 << 62 {
        return Err(CdrFault {
            at: 0,
            kind: CdrKind::NoMemory,
        });
    }
    let source = SliceOctets::new(octets);
    let mut input = CdrIn::new(&source, order, 0);
    let value = decode(alloc, &mut input, desc)?;
    if input.remaining() > 0 {
        return Err(CdrFault {
            at: input.position(),
            kind: CdrKind::Trailing,
        });
    }
    Ok(value)
}

// A value that fits in JSON, without blanks.
fn text_of_value(
    alloc: Global,
    numbers: NumberForm,
    value: &Value,
    desc: &CheckedDesc,
) -> Result<String, AllocError>
    requires { fits (checked_shape desc.now) (value_view value.now) ≡ true }
    ensures { IfOk result (λ text. string_bytes text
        ≡ compact_text (to_data numbers (checked_shape desc.now) (value_view value.now))) }
{
    match value_to_json_in(alloc, numbers, desc, value) {
        Ok(json) => Ok(json.to_string(alloc)?),
        Err(FormFault::NoMemory) => Err(AllocError),
        Err(_) => unreachable!(),
    }
}
