//! A few bytes that stand in the value.
ghost use Rattle.std.specs.Prelude.{◌≡◌, ◌≤◌, length, take};

use std::alloc::AllocError;
use std::marker::Model;

/// At most `N` bytes, where `N` is at most 255. Their number takes one byte, where `ArrayVec` has eight, so that the steps of a record are short.
#[derive(Debug, Drop)]
pub(crate) struct FewBytes<const N: usize> {
    /// How many they are.
    len: u8,
    /// The bytes, and zeros behind them.
    bytes: [u8; N],
}

impl<const N: usize> Model for FewBytes<N> {
    ghost use Rattle.std.specs.Prelude.{◌≤◌, List, ℕ, take};

    ghost Value = { List ℕ };

    ghost view = { λ b. take b.len b.bytes };

    ghost invariant = { λ b. b.len ≤ N };
}

impl<const N: usize> FewBytes<N> {
    /// A copy of the bytes.
    #[inline(always)]
    pub(crate) fn of(few: &[u8]) -> FewBytes<N>
        requires fit { length few.now ≤ N }
        requires most { N ≤ 255 }
        ensures { result ≡ few.now }
    {
        let mut bytes = [0; N];
        bytes[..few.len()].copy_from_slice(few);
        FewBytes {
            len: few.len() as u8,
            bytes,
        }
    }

    /// The bytes.
    pub(crate) fn as_slice(&self) -> &[u8]
        ensures { result.now ≡ self.now }
    {
        &self.bytes[..usize::from(self.len)]
    }
}

impl<const N: usize> Clone for FewBytes<N> {
    ghost is_clone = { λ bytes copy. copy ≡ bytes };

    /// It takes no memory.
    fn clone(&self) -> Result<FewBytes<N>, AllocError> {
        Ok(FewBytes {
            len: self.len,
            bytes: self.bytes,
        })
    }
}
