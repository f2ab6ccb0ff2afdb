//! What a session may be answered.

ghost use Rattle.std.specs.Prelude.{◌≡◌, ◌≤◌, Some, None, IfOk, length, nat_lt, if◌then◌else◌};

use rk_names::{Errno, Payload, SharedBytes};
use std::alloc::{AllocError, Global};
use std::marker::Model;

/// The bytes of a reply: at most 65,533, so that with their length and the kind byte they fit the
/// 65,536 bytes of a frame's body. Its copies share them.
#[derive(Debug, Drop)]
pub struct ReplyBytes {
    /// The bytes, at most 65,533.
    bytes: SharedBytes,
}

impl Model for ReplyBytes {
    ghost use Rattle.std.specs.Prelude.{◌≤◌, List, ℕ, length};

    ghost Value = { List ℕ };

    ghost view = { λ r. r.bytes };

    ghost invariant = { λ r. length r.bytes ≤ 65533 };
}

impl ReplyBytes {
    /// The most bytes that it has.
    pub const MAX_LEN: usize = 65_533;

    /// A copy of the bytes, `None` past 65,533 of them. An `Err` is out of memory.
    pub fn new(alloc: Global, bytes: &[u8]) -> Result<Option<ReplyBytes>, AllocError>
        ensures { IfOk result (λ copy. copy ≡ (if nat_lt 65533 (length bytes.now) then None else Some bytes.now)) }
    {
        if bytes.len() > ReplyBytes::MAX_LEN {
            return Ok(None);
        }
        Ok(Some(ReplyBytes::from_checked(alloc, bytes)?))
    }

    /// A copy of bytes of which there are at most 65,533. An `Err` is out of memory.
    pub fn from_checked(alloc: Global, bytes: &[u8]) -> Result<ReplyBytes, AllocError>
        requires { length bytes.now ≤ 65533 }
        ensures { IfOk result (λ copy. copy ≡ bytes.now) }
    {
        Ok(ReplyBytes {
            bytes: SharedBytes::of(alloc, bytes)?,
        })
    }

    /// The bytes of a payload, which it shares with those whose bytes are shared. An `Err` is out of memory.
    pub fn of_payload(alloc: Global, payload: &Payload) -> Result<ReplyBytes, AllocError>
        ensures { IfOk result (λ copy. copy ≡ payload.now) }
    {
        Ok(ReplyBytes {
            bytes: payload.shared(alloc)?,
        })
    }

    /// The bytes that it was made of.
    pub fn as_bytes(&self) -> &[u8]
        ensures bytes { result.now ≡ self.now }
        ensures rule { length self.now ≤ 65533 }
    {
        self.bytes.as_bytes()
    }
}

impl Clone for ReplyBytes {
    ghost is_clone = { λ bytes copy. copy ≡ bytes };

    fn clone(&self) -> Result<ReplyBytes, AllocError> {
        Ok(ReplyBytes {
            bytes: self.bytes.clone()?,
        })
    }
}

/// What a session is answered.
#[derive(Clone, Debug, Drop, PartialEq, Eq)]
pub enum Reply {
    /// The serial of a key, the setting before, or 0 if there is nothing to return.
    Number(u32),
    /// A payload, a description or a callout.
    Bytes(ReplyBytes),
    /// The serials of the context's rings, 0 for one that is absent.
    Rings {
        /// The thread ring.
        thread: u32,
        /// The process ring.
        process: u32,
        /// The session ring.
        session: u32,
        /// The user ring.
        user: u32,
    },
    /// The ask was refused and changed nothing, or the key that it waited for can't be used.
    Refused(Errno),
}
