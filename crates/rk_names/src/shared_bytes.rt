//! Bytes that copies share.
ghost use Rattle.std.specs.Prelude.{◌≡◌, IfOk};

use smallvec::SmallVec;
use std::alloc::{AllocError, Global};
use std::marker::Model;
use std::sync::Arc;

/// How many bytes stand in one allocation with their count of owners.
const INLINE: usize = 63;

/// Bytes that its copies share, in the room of a pointer. At most 63 take one allocation.
#[derive(Debug, Drop)]
pub struct SharedBytes {
    /// The bytes, which nobody changes.
    bytes: Arc<SmallVec<u8, INLINE>>,
}

impl Model for SharedBytes {
    ghost use Rattle.std.specs.Prelude.{List, ℕ};

    ghost Value = { List ℕ };

    ghost view = { λ b. b.bytes.value.items };
}

impl SharedBytes {
    /// A copy of the bytes. An `Err` is out of memory.
    #[inline(always)]
    pub fn of(alloc: Global, bytes: &[u8]) -> Result<SharedBytes, AllocError>
        ensures { IfOk result (λ copy. copy ≡ bytes.now) }
    {
        let bytes = SmallVec::from_slice(alloc, bytes)?;
        Ok(SharedBytes {
            bytes: Arc::new(alloc, bytes)?,
        })
    }

    /// The bytes that it was made of.
    pub fn as_bytes(&self) -> &[u8]
        ensures { result.now ≡ self.now }
    {
        self.bytes.as_slice()
    }
}

impl Clone for SharedBytes {
    ghost is_clone = { λ bytes copy. copy ≡ bytes };

    fn clone(&self) -> Result<SharedBytes, AllocError> {
        Ok(SharedBytes {
            bytes: self.bytes.clone()?,
        })
    }
}
