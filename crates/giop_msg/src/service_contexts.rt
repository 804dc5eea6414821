//! The service contexts of a message (7.7), as lists that contracts see as plain ones. What a
//! context says is left to its service: they are carried as octets.
ghost use Rattle.std.specs.Prelude.{◌≡◌, ◌==◌, length};
ghost use Rattle.giop_cdr.specs.Reading.Outcome.{Follows};
ghost use Rattle.giop_ior.specs.ServiceContext.{service_contexts};

use crate::joined::no_memory;
use giop_cdr::{CdrFault, CdrIn, Octets, TaggedListAt};
use giop_ior::ServiceContext;
use std::alloc::Global;
use std::marker::Model;

/// The service contexts of a message where they lie.
pub type ServiceContextsAt<'a, S> = TaggedListAt<'a, S, ServiceContext>;

/// The service contexts of a message, in their order: a list that contracts see as a plain one.
#[derive(Debug, Drop)]
pub struct ServiceContexts {
    contexts: Vec<ServiceContext>,
}

impl Model for ServiceContexts {
    ghost use Rattle.std.specs.Prelude.{List};
    ghost use Rattle.giop_ior.specs.declared.references.service_context.ServiceContext.{ServiceContext};

    ghost Value = { List ServiceContext };

    ghost view = { λ l. l.contexts.items };
}

impl ServiceContexts {
    ghost use Rattle.std.specs.Prelude.{◌≡◌, ◌==◌, [], length};

    /// No contexts. It takes no memory.
    pub fn new(alloc: Global) -> ServiceContexts
        ensures { result ≡ [] }
    {
        ServiceContexts {
            contexts: Vec::new(alloc),
        }
    }

    /// The contexts in one slice.
    pub fn as_slice(&self) -> &[ServiceContext]
        ensures { result.now ≡ self.now }
    {
        self.contexts.as_slice()
    }

    /// The number of contexts.
    pub fn len(&self) -> usize
        ensures { result ≡ length self.now }
    {
        self.contexts.len()
    }

    /// Whether there are none.
    pub fn is_empty(&self) -> bool
        ensures { result ≡ (length self.now == 0) }
    {
        self.contexts.is_empty()
    }

    /// The contexts as a `Vec`. It takes no memory.
    pub fn into_vec(self) -> Vec<ServiceContext>
        ensures { result.items ≡ self }
    {
        self.contexts
    }
}

impl From<Vec<ServiceContext>> for ServiceContexts {
    ghost from_gives = { λ contexts list. list ≡ contexts.items };

    fn from(contexts: Vec<ServiceContext>) -> ServiceContexts {
        ServiceContexts { contexts }
    }
}

/// Two lists are equal where they are as long and their contexts are equal one by one.
impl PartialEq for ServiceContexts {
    ghost use Rattle.std.specs.Prelude.{nat_eq};
    ghost use Rattle.std.specs.Ordering.{on, eq_of_both};
    ghost use Rattle.std.specs.Cmp.Lexicographic.{pointwise};
    ghost use Rattle.std.specs.Cmp.Rules.{comparing};
    ghost use Rattle.std.proofs.Common.{rules};

    ghost eq = { pointwise
        (eq_of_both (on (λ c. c.id) nat_eq) (on (λ c. c.octets) (pointwise nat_eq))) };

    ghost laws = { Prim.search (comparing, rules) };

    fn eq(&self, other: &ServiceContexts) -> bool {
        self.contexts == other.contexts
    }
}

impl Eq for ServiceContexts {
    ghost use Rattle.std.specs.Cmp.Rules.{comparing};
    ghost use Rattle.std.proofs.Common.{rules};

    ghost laws = { Prim.search (comparing, rules) };
}

// Reads the contexts of a message by a reader of their own, with copies of their octets.
#[tactic(auto, unfolding(giop_ior::specs::ServiceContext::service_contexts, giop_ior::specs::ServiceContext::service_context, giop_cdr::specs::Layout::sequence, giop_cdr::specs::Layout::tagged, giop_cdr::specs::Layout::field, giop_cdr::specs::Layout::number, giop_cdr::specs::Layout::octets, giop_cdr::specs::Layout::gives, giop_cdr::specs::Reading::View::tagged_at))]
fn copy_contexts<S: Octets>(
    alloc: Global,
    input: &mut CdrIn<S>,
) -> Result<ServiceContexts, CdrFault>
    ensures { Follows (λ contexts. contexts) result input.new (service_contexts.read input.old) }
{
    let contexts = input.view_tagged_list::<ServiceContext>()?;
    match contexts.to_vec(alloc) {
        Ok(contexts) => Ok(ServiceContexts::from(contexts)),
        Err(_) => Err(no_memory()),
    }
}

// Reads the contexts of a message, with copies of their octets. Most messages have none, and then
// no call is made.
#[tactic(auto, unfolding(giop_ior::specs::ServiceContext::service_contexts, giop_cdr::specs::Layout::sequence, giop_cdr::specs::Reading::Values::sequence_at, giop_cdr::specs::Reading::Values::items_at))]
#[inline(always)]
pub(crate) fn read_contexts<S: Octets>(
    alloc: Global,
    input: &mut CdrIn<S>,
) -> Result<ServiceContexts, CdrFault>
    ensures { Follows (λ contexts. contexts) result input.new (service_contexts.read input.old) }
{
    let mut ahead = input.fork();
    if ahead.read_count()? == 0 {
        *input = ahead;
        return Ok(ServiceContexts::new(alloc));
    }
    let mut ahead = input.fork();
    let contexts = copy_contexts(alloc, &mut ahead)?;
    *input = ahead;
    Ok(contexts)
}
