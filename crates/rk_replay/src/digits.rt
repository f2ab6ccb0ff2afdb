//! Bytes as hexadecimal digits, by a table.
ghost use Rattle.std.specs.Prelude.{◌≡◌, ◌*◌, true, length, Ok, IfOk, IfSome};
ghost use Rattle.hex.specs.Hex.{decode_of};
ghost use Rattle.rk_replay.specs.Digits.{value_or_none};

use std::alloc::{AllocError, Global};

/// What a byte says that is no digit.
const NO_DIGIT: u8 = 16;

/// What each byte says as a digit, in either case.
const VALUES: [u8; 256] = [
    16, 16, 16, 16, 16, 16, 16, 16, 16, 16, 16, 16, 16, 16, 16, 16, 16, 16, 16, 16, 16, 16, 16, 16,
    16, 16, 16, 16, 16, 16, 16, 16, 16, 16, 16, 16, 16, 16, 16, 16, 16, 16, 16, 16, 16, 16, 16, 16,
    0, 1, 2, 3, 4, 5, 6, 7, 8, 9, 16, 16, 16, 16, 16, 16, 16, 10, 11, 12, 13, 14, 15, 16, 16, 16,
    16, 16, 16, 16, 16, 16, 16, 16, 16, 16, 16, 16, 16, 16, 16, 16, 16, 16, 16, 16, 16, 16, 16, 10,
    11, 12, 13, 14, 15, 16, 16, 16, 16, 16, 16, 16, 16, 16, 16, 16, 16, 16, 16, 16, 16, 16, 16, 16,
    16, 16, 16, 16, 16, 16, 16, 16, 16, 16, 16, 16, 16, 16, 16, 16, 16, 16, 16, 16, 16, 16, 16, 16,
    16, 16, 16, 16, 16, 16, 16, 16, 16, 16, 16, 16, 16, 16, 16, 16, 16, 16, 16, 16, 16, 16, 16, 16,
    16, 16, 16, 16, 16, 16, 16, 16, 16, 16, 16, 16, 16, 16, 16, 16, 16, 16, 16, 16, 16, 16, 16, 16,
    16, 16, 16, 16, 16, 16, 16, 16, 16, 16, 16, 16, 16, 16, 16, 16, 16, 16, 16, 16, 16, 16, 16, 16,
    16, 16, 16, 16, 16, 16, 16, 16, 16, 16, 16, 16, 16, 16, 16, 16, 16, 16, 16, 16, 16, 16, 16, 16,
    16, 16, 16, 16, 16, 16, 16, 16, 16, 16, 16, 16, 16, 16,
];

/// What a byte says as a digit.
#[inline(always)]
fn value(byte: u8) -> u8
    ensures { result ≡ value_or_none byte }
{
    VALUES[byte as usize]
}

/// The bytes of pairs of digits, one after the other; whether all were digits.
fn fill(bytes: &mut [u8], digits: &[u8]) -> bool
    requires { length digits.now ≡ 2 * length bytes.old }
    ensures { result ≡ true → decode_of digits.now ≡ Ok bytes.new }
{
    'bytes: for i in 0..bytes.len() {
        let high = value(digits[2 * i]);
        let low = value(digits[2 * i + 1]);
        if high >= NO_DIGIT || low >= NO_DIGIT {
            return false;
        }
        bytes[i] = high * 16 + low;
    }
    true
}

/// The bytes of digits, as `hex::decode` says them. `None` tells nothing. An `Err` is out of memory.
///
/// Most of a script is digits: with a table they take half as long.
pub fn decoded(alloc: Global, digits: &[u8]) -> Result<Option<Vec<u8>>, AllocError>
    ensures { IfOk result (λ found. IfSome found (λ bytes. decode_of digits.now ≡ Ok bytes.items)) }
{
    if digits.len() % 2 != 0 {
        return Ok(None);
    }
    let mut bytes = vec![in alloc; 0u8; digits.len() / 2]?;
    if fill(&mut bytes, digits) {
        Ok(Some(bytes))
    } else {
        Ok(None)
    }
}
