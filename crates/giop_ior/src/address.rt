ghost use Rattle.std.specs.Prelude.{◌≡◌, ◌==◌, length};

use giop_cdr::OctetList;
use std::alloc::Global;
use std::marker::Model;

/// A host that answers over IIOP, and the version that it speaks (CORBA 3.3 Part 2, 7.6.10.3).
#[derive(Debug, Drop, PartialEq, Eq)]
pub struct Address {
    /// The major version of IIOP: 1.
    pub major: u8,
    /// The minor version.
    pub minor: u8,
    /// The host's name or its IPv4 address, in octets.
    pub host: OctetList,
    /// The TCP port.
    pub port: u16,
}

/// The addresses of a corbaloc, in their order: a list that contracts see as a plain one.
#[derive(Debug, Drop)]
pub struct AddressList {
    addresses: Vec<Address>,
}

impl Model for AddressList {
    ghost use Rattle.std.specs.Prelude.{List};
    ghost use Rattle.giop_ior.specs.declared.address.Address.{Address};

    ghost Value = { List Address };

    ghost view = { λ l. l.addresses.items };
}

impl AddressList {
    ghost use Rattle.std.specs.Prelude.{[]};

    /// No addresses. It takes no memory.
    pub fn new(alloc: Global) -> AddressList
        ensures { result ≡ [] }
    {
        AddressList {
            addresses: Vec::new(alloc),
        }
    }

    /// The addresses in one slice.
    pub fn as_slice(&self) -> &[Address]
        ensures { result.now ≡ self.now }
    {
        self.addresses.as_slice()
    }

    /// The number of addresses.
    pub fn len(&self) -> usize
        ensures { result ≡ length self.now }
    {
        self.addresses.len()
    }

    /// Whether there are none.
    pub fn is_empty(&self) -> bool
        ensures { result ≡ (length self.now == 0) }
    {
        self.addresses.is_empty()
    }

    /// The addresses as a `Vec`. It takes no memory.
    pub fn into_vec(self) -> Vec<Address>
        ensures { result.items ≡ self }
    {
        self.addresses
    }
}

impl From<Vec<Address>> for AddressList {
    ghost from_gives = { λ addresses list. list ≡ addresses.items };

    fn from(addresses: Vec<Address>) -> AddressList {
        AddressList { addresses }
    }
}
