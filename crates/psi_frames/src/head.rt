//! The first bytes of a frame.
ghost use Rattle.std.specs.Prelude.{◌≡◌, ◌+◌, ◌-◌, ◌≤◌, [], ◌++◌, min, length};

use crate::front::BEFORE_BODY;
use std::marker::Model;

/// What has come of the eleven bytes of a frame before its body.
#[derive(Drop)]
pub(crate) struct Head {
    bytes: [u8; 11],
    len: usize,
}

impl Model for Head {
    ghost use Rattle.std.specs.Prelude.{◌≤◌, List, ℕ, take};

    ghost Value = { List ℕ };

    ghost view = { λ h. take h.len h.bytes };

    ghost invariant = { λ h. h.len ≤ 11 };
}

impl Head {
    /// No byte.
    pub(crate) fn new() -> Head
        ensures { result ≡ [] }
    {
        Head {
            bytes: [0; BEFORE_BODY],
            len: 0,
        }
    }

    /// How many bytes have come: eleven at most.
    pub(crate) fn len(&self) -> usize
        ensures value { result ≡ length self.now }
        ensures few { result ≤ 11 }
    {
        self.len
    }

    /// The bytes.
    pub(crate) fn items(&self) -> &[u8]
        ensures value { result.now ≡ self.now }
        ensures few { length self.now ≤ 11 }
    {
        &self.bytes[..self.len]
    }

    /// How many bytes of a piece belong to the head.
    pub(crate) fn room(&self, piece: &[u8]) -> usize
        ensures value { result ≡ min (11 - length self.now) (length piece.now) }
        ensures fits { length self.now + result ≤ 11 }
    {
        (BEFORE_BODY - self.len).min(piece.len())
    }

    /// The head with more bytes, eleven at most in all.
    pub(crate) fn with(&self, more: &[u8]) -> Head
        requires { length self.now + length more.now ≤ 11 }
        ensures { result ≡ self.now ++ more.now }
    {
        let mut bytes = self.bytes;
        let len = self.len + more.len();
        bytes[self.len..len].copy_from_slice(more);
        Head { bytes, len }
    }
}
