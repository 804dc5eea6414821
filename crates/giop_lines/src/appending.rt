//! Parts of lines that are appended to a text as it stands, with the texts of those that are shown.
ghost use Rattle.std.specs.Prelude.{◌≡◌, ◌++◌, OnOk};
ghost use Rattle.std.specs.String.{string_bytes};
ghost use Rattle.giop_lines.specs.Lines.{target_text};
ghost use Rattle.giop_lines.specs.Octets.{escaped_text, hex_text};
ghost use Rattle.giop_lines.specs.TraceLines.{call_id_text};

use crate::{EscapedText, OwnTargetText};
use giop_msg::Target;
use itoa::Buffer;
use percent_encoding::ascii_str;
use std::alloc::AllocError;
use std::fmt::Write;

/// Appends the id of a call; `-` where there is none.
pub fn append_id(text: &mut String, id: Option<u32>) -> Result<(), AllocError>
    ensures { OnOk result (string_bytes text.new ≡ string_bytes text.old ++ call_id_text id) }
{
    match id {
        Some(id) => text.push_str(Buffer::new().format(id)),
        None => text.push_str("-"),
    }
}

/// Appends the target of a decoded Request.
pub fn append_target(text: &mut String, target: &Target) -> Result<(), AllocError>
    ensures { OnOk result
        (string_bytes text.new ≡ string_bytes text.old ++ target_text target.now) }
{
    match target {
        Target::Key(key) => {
            text.push_str("key ")?;
            append_hex(text, key.as_slice())
        }
        _ => append_target_shown(text, target),
    }
}

// Appends a target that may be any.
fn append_target_shown(text: &mut String, target: &Target) -> Result<(), AllocError>
    ensures { OnOk result
        (string_bytes text.new ≡ string_bytes text.old ++ target_text target.now) }
{
    match write!(text, "{}", OwnTargetText(target)) {
        Ok(()) => Ok(()),
        Err(_) => Err(AllocError),
    }
}

/// Appends octets in lower-case hexadecimal, `-` where there are none.
pub fn append_hex(text: &mut String, octets: &[u8]) -> Result<(), AllocError>
    ensures { OnOk result (string_bytes text.new ≡ string_bytes text.old ++ hex_text octets.now) }
{
    if octets.is_empty() {
        return text.push_str("-");
    }
    for octet in octets {
        let mut digits = [0; 2];
        hex::encode_to_slice([*octet], &mut digits).unwrap();
        text.push_str(ascii_str(&digits))?;
    }
    Ok(())
}

/// Appends octets as text in which some are escaped, as `EscapedText` shows them.
pub fn append_escaped(text: &mut String, octets: &[u8]) -> Result<(), AllocError>
    ensures { OnOk result
        (string_bytes text.new ≡ string_bytes text.old ++ escaped_text octets.now) }
{
    match write!(text, "{}", EscapedText(octets)) {
        Ok(()) => Ok(()),
        Err(_) => Err(AllocError),
    }
}
