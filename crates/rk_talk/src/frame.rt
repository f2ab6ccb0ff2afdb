//! The bytes of a reply.
ghost use Rattle.std.specs.Prelude.{◌≡◌};

use std::marker::Model;

/// A reply with its length before it. Those of a number and of a refusal lie in their value, so that they take no memory.
#[derive(Debug, Drop)]
pub struct Frame<'a> {
    /// The reply's length and body.
    bytes: Kept<'a>,
}

/// Where the bytes lie.
#[derive(Debug, Drop)]
enum Kept<'a> {
    /// A length of four bytes, the kind, and a number of four.
    Number([u8; 9]),
    /// A length of four bytes, the kind, and an error of one.
    Refusal([u8; 6]),
    /// Any other reply, which takes memory.
    Other(&'a [u8]),
}

impl<'a> Model for Frame<'a> {
    ghost use Rattle.std.specs.Prelude.{List, ℕ};
    ghost use Rattle.rk_talk.specs.Kept.{kept_bytes};

    ghost Value = { List ℕ };

    ghost view = { λ f. kept_bytes f.bytes };
}

impl<'a> Frame<'a> {
    /// The frame of a number. It takes no memory.
    pub(crate) fn number(bytes: [u8; 9]) -> Frame<'a>
        ensures { result ≡ bytes }
    {
        Frame {
            bytes: Kept::Number(bytes),
        }
    }

    /// The frame of a refusal. It takes no memory.
    pub(crate) fn refusal(bytes: [u8; 6]) -> Frame<'a>
        ensures { result ≡ bytes }
    {
        Frame {
            bytes: Kept::Refusal(bytes),
        }
    }

    /// The frame of any other reply, with its length.
    pub(crate) fn other(bytes: &'a [u8]) -> Frame<'a>
        ensures { result ≡ bytes.now }
    {
        Frame {
            bytes: Kept::Other(bytes),
        }
    }

    /// The bytes, the length in front.
    pub fn as_bytes(&self) -> &[u8]
        ensures { result.now ≡ self.now }
    {
        match &self.bytes {
            Kept::Number(bytes) => bytes,
            Kept::Refusal(bytes) => bytes,
            Kept::Other(bytes) => bytes,
        }
    }
}
