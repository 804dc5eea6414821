//! A store of octets in two parts, so that a value may lie across a border.
ghost use Rattle.std.specs.Prelude.{◌≡◌, ◌+◌, ◌<◌, ◌^◌, ◌++◌, List, ℕ, length};

use giop_cdr::Octets;
use std::marker::Model;

/// Octets that lie in two parts.
#[derive(Drop)]
pub struct TwoParts<'a> {
    front: &'a [u8],
    back: &'a [u8],
}

impl<'a> Model for TwoParts<'a> {
    ghost Value = { List ℕ };

    ghost view = { λ t. t.front.now ++ t.back.now };

    ghost invariant = { λ t. length t.front.now + length t.back.now < 2 ^ 64 };
}

impl<'a> TwoParts<'a> {
    pub fn new(front: &'a [u8], back: &'a [u8]) -> TwoParts<'a>
        requires { length front.now + length back.now < 2 ^ 64 }
        ensures { result ≡ front.now ++ back.now }
    {
        TwoParts { front, back }
    }
}

impl<'a> Octets for TwoParts<'a> {
    ghost octets = { λ t. t };

    fn len(&self) -> usize {
        self.front.len() + self.back.len()
    }

    fn at(&self, i: usize) -> u8 {
        if i < self.front.len() {
            self.front[i]
        } else {
            self.back[i - self.front.len()]
        }
    }

    fn run(&self, from: usize) -> &[u8] {
        if from < self.front.len() {
            &self.front[from..]
        } else {
            &self.back[from - self.front.len()..]
        }
    }
}
