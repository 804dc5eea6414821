//! The joined octets of a fragmented message (CORBA 3.3 Part 2, 9.4.9) when its last piece comes:
//! the gathered ones and those of this piece, each read where it lies.
ghost use Rattle.std.specs.Prelude.{◌≡◌, ◌+◌, ◌<◌, ◌^◌, ◌++◌, length};

use giop_cdr::Octets;
use std::marker::Model;

/// The octets of a message whose last piece has come: those that are gathered, where they lie, and
/// those of the last piece behind them.
///
/// Contracts see the list of all octets.
#[derive(Drop)]
pub struct WithLast<'a, S: Octets> {
    gathered: &'a S,
    last: &'a [u8],
}

impl<'a, S: Octets> Model for WithLast<'a, S> {
    ghost use Rattle.std.specs.Prelude.{◌+◌, ◌<◌, ◌^◌, ◌++◌, List, ℕ, length};

    ghost Value = { List ℕ };

    ghost view = { λ w. S.octets w.gathered.now ++ w.last.now };

    ghost invariant = { λ w. length (S.octets w.gathered.now) + length w.last.now < 2 ^ 64 };
}

impl<'a, S: Octets> WithLast<'a, S> {
    /// The octets `last` behind those that are gathered. It takes no memory.
    pub fn new(gathered: &'a S, last: &'a [u8]) -> WithLast<'a, S>
        requires { length (S.octets gathered.now) + length last.now < 2 ^ 64 }
        ensures { result ≡ S.octets gathered.now ++ last.now }
    {
        WithLast { gathered, last }
    }
}

impl<'a, S: Octets> Octets for WithLast<'a, S> {
    ghost octets = { λ w. w };

    fn len(&self) -> usize {
        self.gathered.len() + self.last.len()
    }

    fn at(&self, i: usize) -> u8 {
        let front = self.gathered.len();
        if i < front {
            self.gathered.at(i)
        } else {
            self.last[i - front]
        }
    }

    fn run(&self, from: usize) -> &[u8] {
        let front = self.gathered.len();
        if from < front {
            self.gathered.run(from)
        } else {
            &self.last[from - front..]
        }
    }
}
