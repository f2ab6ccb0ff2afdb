//! How numbers are hashed that the daemon draws itself.
ghost use Rattle.rk_table.specs.Hashed.{byte_more, spread};

use std::hash::{BuildHasher, Hasher};

/// Builds a [`NumberHasher`]. It has no seed: serials, the numbers of names and keyed hashes of names are the daemon's own, so no
/// stranger can choose some that meet. What a client chooses itself is to be hashed with a seed first, as rk_keys does with names.
#[derive(Clone, Copy)]
pub struct DrawnNumbers;

impl BuildHasher for DrawnNumbers {
    type Hasher = NumberHasher;

    ghost build_hasher = { λ _. record { 0 = 0 } };

    fn build_hasher(&self) -> NumberHasher {
        NumberHasher(0)
    }
}

/// Hashes one number, by a multiplication: the last 64 bits that were written, times an odd constant.
#[derive(Clone, Copy)]
pub struct NumberHasher(u64);

impl Hasher for NumberHasher {
    ghost use Rattle.std.specs.Prelude.{fold};

    ghost write = { λ h bytes. record { 0 = fold byte_more h.0 bytes } };

    ghost finish = { λ h. spread h.0 };

    #[inline(always)]
    fn finish(&self) -> u64 {
        self.0.wrapping_mul(0x9e37_79b9_7f4a_7c15)
    }

    #[inline(always)]
    fn write(&mut self, bytes: &[u8]) {
        for byte in bytes {
            self.0 = self.0.wrapping_mul(256).wrapping_add(u64::from(*byte));
        }
    }
}
