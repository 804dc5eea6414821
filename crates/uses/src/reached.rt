//! Where an object is reached, from the text of its reference. giop_ior's CALLING.md shows it:
//! change both.
use giop_cdr::OctetList;
use giop_ior::{iiop_view, ior_from_text};
use giop_ior_text::IorTextFault;
use std::alloc::Global;

/// The host and the port at which the first IIOP profile of a reference's text is reached.
pub fn endpoint(alloc: Global, text: &[u8]) -> Result<Option<(OctetList, u16)>, IorTextFault> {
    let ior = ior_from_text(alloc, text)?;
    for profile in ior.profiles.into_vec() {
        if profile.tag == 0 && profile.octets.len() <= 1 << 62 {
            if let Ok(view) = iiop_view(alloc, &profile) {
                return Ok(Some((view.host, view.port)));
            }
        }
    }
    Ok(None)
}
