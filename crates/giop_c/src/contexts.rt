//! Service contexts (CORBA 3.3 Part 2, 7.7), as C asks for them: one after the other.
ghost use Rattle.std.specs.Prelude.{◌≡◌, option_copied};
ghost use Rattle.giop_c.specs.Contexts.{CopiesContext, context_at};

use crate::copying::copy_octets;
use giop_ior::ServiceContext;
use giop_msg::ServiceContexts;

/// The context at an index, the first at 0, where there is one.
pub fn context_at(contexts: Option<&ServiceContexts>, index: usize) -> Option<&ServiceContext>
    ensures { option_copied result ≡ context_at index (option_copied contexts.entry) }
{
    match contexts {
        Some(contexts) => contexts.as_slice().get(index),
        None => None,
    }
}

/// Writes the id of a context and copies its octets, where there is one. It answers OK; SMALL, where
/// the buffer has no room for them; or WAITS, where there is none.
pub fn copy_context(
    context: Option<&ServiceContext>,
    service: &mut u32,
    buffer: &mut [u8],
    size: &mut usize,
) -> u32
    ensures { CopiesContext (option_copied context.entry) service.old service.new
        buffer.old buffer.new size.old size.new result }
{
    match context {
        Some(context) => {
            *service = context.id;
            copy_octets(Some(context.octets.as_slice()), buffer, size)
        }
        None => copy_octets(None, buffer, size),
    }
}
