ghost use Rattle.std.specs.Prelude.{◌≡◌, ◌==◌, length};

use giop_cdr::{OctetList, Tagged, TaggedListAt};
use std::alloc::Global;
use std::marker::Model;

/// What a service of the broker sends along with a request or a reply (9.4.2): octets that are
/// carried unread.
#[derive(Debug, Drop, PartialEq, Eq)]
pub struct ServiceContext {
    /// Which service it is of.
    pub id: u32,
    /// Its octets, as they came.
    pub octets: OctetList,
}

impl Tagged for ServiceContext {
    ghost made = { λ id contents. record { id = id; octets = contents } };

    fn from_parts(id: u32, octets: OctetList) -> ServiceContext {
        ServiceContext { id, octets }
    }
}

/// The service contexts of a message where they lie.
pub type ServiceContextsAt<'a, S> = TaggedListAt<'a, S, ServiceContext>;

/// The service contexts of a message, in their order: a list that contracts see as a plain one.
#[derive(Debug, Drop)]
pub struct ServiceContexts {
    contexts: Vec<ServiceContext>,
}

impl Model for ServiceContexts {
    ghost use Rattle.std.specs.Prelude.{List};
    ghost use Rattle.giop_msg.specs.declared.service_context.ServiceContext.{ServiceContext};

    ghost Value = { List ServiceContext };

    ghost view = { λ l. l.contexts.items };
}

impl ServiceContexts {
    ghost use Rattle.std.specs.Prelude.{◌≡◌, ◌==◌, [], length};

    /// No contexts. It takes no memory.
    pub fn new(alloc: Global) -> ServiceContexts
        ensures { result ≡ [] }
    {
        ServiceContexts {
            contexts: Vec::new(alloc),
        }
    }

    /// The contexts in one slice.
    pub fn as_slice(&self) -> &[ServiceContext]
        ensures { result.now ≡ self.now }
    {
        self.contexts.as_slice()
    }

    /// The number of contexts.
    pub fn len(&self) -> usize
        ensures { result ≡ length self.now }
    {
        self.contexts.len()
    }

    /// Whether there are none.
    pub fn is_empty(&self) -> bool
        ensures { result ≡ (length self.now == 0) }
    {
        self.contexts.is_empty()
    }

    /// The contexts as a `Vec`. It takes no memory.
    pub fn into_vec(self) -> Vec<ServiceContext>
        ensures { result.items ≡ self }
    {
        self.contexts
    }
}

impl From<Vec<ServiceContext>> for ServiceContexts {
    ghost from_gives = { λ contexts list. list ≡ contexts.items };

    fn from(contexts: Vec<ServiceContext>) -> ServiceContexts {
        ServiceContexts { contexts }
    }
}
