//! Room for the payload of an end.
ghost use Rattle.std.specs.Prelude.{◌≡◌, ◌≤◌, [], vec_capacity};

use rk_names::Payload;
use std::alloc::{AllocError, Global};

/// Room for the payload that the end of a handler may bring, made before anything is owed.
#[derive(Drop)]
pub(crate) struct Room {
    /// An empty buffer with room for 32,767 bytes.
    bytes: Vec<u8>,
    // Nothing lies in it yet.
    ghost empty: { bytes.items ≡ [] },
    // The longest payload fits without memory.
    ghost large: { 32767 ≤ vec_capacity bytes },
}

impl Room {
    /// An empty room, for the longest payload.
    pub(crate) fn new(alloc: Global) -> Result<Room, AllocError> {
        let bytes = Vec::with_capacity(alloc, Payload::MAX_LEN)?;
        Ok(Room { bytes })
    }

    /// A copy of the payload, in this room. It takes no memory.
    pub(crate) fn fill(self, payload: &Payload) -> Payload
        ensures { result ≡ payload.now }
    {
        let Room { bytes } = self;
        let mut copy = bytes;
        match copy.extend_from_slice(payload.as_bytes()) {
            Ok(()) => match Payload::new(copy) {
                Ok(payload) => payload,
                Err(_) => unreachable!(),
            },
            Err(_) => unreachable!(),
        }
    }
}
