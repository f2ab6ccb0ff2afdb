//! The bytes of a description or a callout.
ghost use Rattle.std.specs.Prelude.{◌≡◌, ◌≤◌, IfOk};
ghost use Rattle.rk_names.specs.Longs.{IsLongOf};

use crate::few_bytes::FewBytes;
use crate::shared_bytes::SharedBytes;
use std::alloc::{AllocError, Global};
use std::marker::Model;

/// The bytes of a description or a callout. At most `FEW` stand in the value, so that most copies take no memory; the copies of more share them. `FEW` is
/// at most 255.
#[derive(Debug, Drop)]
pub(crate) struct NameBytes<const FEW: usize> {
    /// The bytes, wherever they lie.
    bytes: Held<FEW>,
}

/// Bytes in the value, or shared.
#[derive(Debug, Drop)]
enum Held<const FEW: usize> {
    /// At most `FEW`.
    Few(FewBytes<FEW>),
    /// More.
    Many(SharedBytes),
}

impl<const FEW: usize> Model for NameBytes<FEW> {
    ghost use Rattle.std.specs.Prelude.{List, ℕ};
    ghost use Rattle.rk_names.specs.Longs.{held_bytes};

    ghost Value = { List ℕ };

    ghost view = { λ b. held_bytes b.bytes };
}

impl<const FEW: usize> NameBytes<FEW> {
    /// A copy of the bytes. An `Err` is out of memory, which comes for more than `FEW` bytes alone.
    #[inline(always)]
    pub(crate) fn of(alloc: Global, bytes: &[u8]) -> Result<NameBytes<FEW>, AllocError>
        requires most { FEW ≤ 255 }
        ensures { IfOk result (λ copy. copy ≡ bytes.now) }
    {
        let long = NameBytes::<FEW>::long(alloc, bytes)?;
        Ok(NameBytes::with(bytes, long))
    }

    /// What a copy of the bytes takes of memory: nothing for at most `FEW`. An `Err` is out of memory.
    #[inline(always)]
    pub(crate) fn long(alloc: Global, bytes: &[u8]) -> Result<Option<LongBytes>, AllocError>
        ensures { IfOk result (λ long. IsLongOf FEW long bytes.now) }
    {
        if bytes.len() <= FEW {
            return Ok(None);
        }
        Ok(Some(LongBytes::of(alloc, bytes)?))
    }

    /// A copy of the bytes for which the memory was taken before.
    #[inline(always)]
    pub(crate) fn with(bytes: &[u8], long: Option<LongBytes>) -> NameBytes<FEW>
        requires long { IsLongOf FEW long bytes.now }
        requires most { FEW ≤ 255 }
        ensures { result ≡ bytes.now }
    {
        NameBytes {
            bytes: match long {
                Some(long) => Held::Many(long.bytes),
                None => Held::Few(FewBytes::of(bytes)),
            },
        }
    }

    /// The bytes, wherever they lie.
    pub(crate) fn as_slice(&self) -> &[u8]
        ensures { result.now ≡ self.now }
    {
        match &self.bytes {
            Held::Few(few) => few.as_slice(),
            Held::Many(many) => many.as_bytes(),
        }
    }
}

impl<const FEW: usize> Clone for NameBytes<FEW> {
    ghost is_clone = { λ bytes copy. copy ≡ bytes };

    fn clone(&self) -> Result<NameBytes<FEW>, AllocError> {
        Ok(NameBytes {
            bytes: match &self.bytes {
                Held::Few(few) => Held::Few(few.clone()?),
                Held::Many(many) => Held::Many(many.clone()?),
            },
        })
    }
}

/// A copy of bytes that do not stand in the value of a description or a callout, made before they are wanted there.
#[derive(Debug, Drop)]
pub struct LongBytes {
    /// The bytes, which are too many for the value.
    bytes: SharedBytes,
}

impl Model for LongBytes {
    ghost use Rattle.std.specs.Prelude.{List, ℕ};

    ghost Value = { List ℕ };

    ghost view = { λ b. b.bytes };
}

impl LongBytes {
    /// A copy of the bytes. An `Err` is out of memory.
    #[cold]
    #[inline(never)]
    fn of(alloc: Global, bytes: &[u8]) -> Result<LongBytes, AllocError>
        ensures { IfOk result (λ long. long ≡ bytes.now) }
    {
        Ok(LongBytes {
            bytes: SharedBytes::of(alloc, bytes)?,
        })
    }
}
