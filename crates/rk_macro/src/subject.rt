//! What a command is made for.
ghost use Rattle.std.specs.Prelude.{◌≡◌};

use rk_names::{Callout, Description, Serial, TypeName};

/// What a command is to do with the key (request-key.conf(5), "op").
#[derive(Clone, Copy, Debug, PartialEq, Eq)]
pub enum Op {
    /// Make it: the first command of a construction.
    Create,
    /// Say that it cannot be made, after a piped command that was to make it failed.
    Negate,
}

impl Op {
    ghost use Rattle.std.specs.Prelude.{◌≡◌, true};
    ghost use Rattle.rk_text.specs.Text.{is_text};
    ghost use Rattle.rk_macro.specs.Ops.{op_name};

    /// Its name, as it stands in a line.
    pub fn as_bytes(self) -> &'static [u8]
        ensures value { result.now ≡ op_name self }
        ensures text { is_text result.now ≡ true }
    {
        match self {
            Op::Create => b"create",
            Op::Negate => b"negate",
        }
    }
}

/// The request that a command is started for: the key under construction, the callout, and the requester.
///
/// A ring that is absent, or was dropped, is 0.
#[derive(Clone, Debug, Drop, PartialEq, Eq)]
pub struct Subject {
    /// The key under construction.
    pub key: Serial,
    /// What the command is to do with it.
    pub op: Op,
    /// The type of the key.
    pub typ: TypeName,
    /// The description of the key.
    pub desc: Description,
    /// What the requester passed to the handler.
    pub callout: Callout,
    /// The requester's uid.
    pub uid: u32,
    /// The requester's gid.
    pub gid: u32,
    /// The requester's thread ring, or 0.
    pub thread: u32,
    /// The requester's process ring, or 0.
    pub process: u32,
    /// The requester's session ring, or 0.
    pub session: u32,
}

impl Subject {
    ghost use Rattle.std.specs.Prelude.{◌≡◌, ◌↔◌, IsTrue};

    /// Whether the two are equal, field by field.
    pub fn equals(&self, other: &Subject) -> bool
        ensures { IsTrue result ↔ (self.now ≡ other.now) }
    {
        self == other
    }
}
