//! `convert` over files and the standard output. What it prints is giop_converting's, over any
//! writer.
ghost use Rattle.std.specs.Prelude.{IfOk};
ghost use Rattle.giop_reading.specs.Converted.{IsConverted, IsDecided};

mod faults;

use crate::convert::faults::{print_ior_fault, print_value_fault};
use giop_cdr::Order;
use giop_converting::{convert_corbaloc, convert_ior, convert_value};
use giop_files::files::{OUTPUT_BUFFER, read};
use giop_files::report;
use giop_files::report::texts;
use giop_forms::{LineForm, Way};
use giop_show::failure::Failure;
use giop_show::status::Status;
use giop_show::unended;
use giop_words::ConvertKind;
use std::io;
use std::io::{BufWriter, Write};

/// Reads the file, then that of the description where the kind has one, and writes what becomes of
/// it. Where a text is refused, it says which file is at fault, and where. Returns the status that
/// the program ends with.
#[tactic(auto, using(crate::proofs::ConvertedLemmas::converted_status))]
pub fn convert(rt: &HostRuntime, file: &str, kind: ConvertKind) -> Status
    ensures { IsConverted result }
{
    let octets = match read(rt, file) {
        Ok(octets) => octets,
        Err(failure) => return report::status_of(rt, file, Err(failure)),
    };
    let octets = octets.as_slice();
    let answered = match kind {
        ConvertKind::Ior(form) => {
            let answered = write_ior(rt, octets, form);
            if let Ok(Status::Refused) = &answered {
                print_ior_fault(rt, file, unended(octets));
            }
            answered
        }
        ConvertKind::Corbaloc(form) => {
            let answered = write_corbaloc(rt, octets, form);
            if let Ok(Status::Refused) = &answered {
                texts::text(rt, file, "no corbaloc");
            }
            answered
        }
        ConvertKind::Value { way, desc, order } => match read(rt, desc) {
            Ok(text) => {
                let description = text.as_slice();
                let answered = write_value(rt, octets, description, way, order);
                if let Ok(Status::Refused) = &answered {
                    print_value_fault(rt, file, octets, desc, description, way);
                }
                answered
            }
            Err(failure) => return report::status_of(rt, desc, Err(failure)),
        },
    };
    report::status_of(rt, file, answered)
}

#[tactic(auto, using(crate::proofs::ConvertedLemmas::decided_ior))]
fn write_ior(rt: &HostRuntime, octets: &[u8], form: LineForm) -> Result<Status, Failure>
    ensures { IfOk result IsDecided }
{
    let mut writer = BufWriter::with_capacity(rt.alloc(), OUTPUT_BUFFER, io::writer(rt))?;
    let status = convert_ior(rt.alloc(), octets, form, &mut writer)?;
    writer.flush()?;
    Ok(status)
}

#[tactic(auto, using(crate::proofs::ConvertedLemmas::decided_corbaloc))]
fn write_corbaloc(rt: &HostRuntime, octets: &[u8], form: LineForm) -> Result<Status, Failure>
    ensures { IfOk result IsDecided }
{
    let mut writer = BufWriter::with_capacity(rt.alloc(), OUTPUT_BUFFER, io::writer(rt))?;
    let status = convert_corbaloc(rt.alloc(), octets, form, &mut writer)?;
    writer.flush()?;
    Ok(status)
}

#[tactic(auto, using(crate::proofs::ConvertedLemmas::decided_value))]
fn write_value(
    rt: &HostRuntime,
    octets: &[u8],
    description: &[u8],
    way: Way,
    order: Order,
) -> Result<Status, Failure>
    ensures { IfOk result IsDecided }
{
    let mut writer = BufWriter::with_capacity(rt.alloc(), OUTPUT_BUFFER, io::writer(rt))?;
    let status = convert_value(rt.alloc(), octets, description, way, order, &mut writer)?;
    writer.flush()?;
    Ok(status)
}
