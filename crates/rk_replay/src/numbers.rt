//! Numbers in decimal digits.
ghost use Rattle.std.specs.Prelude.{◌≡◌, Some, IfSome};
ghost use Rattle.rk_text.specs.Numbers.{number_of, up_to};

/// The number that the bytes say in decimal digits, without a sign; `None` if they say none, or one above the limit.
///
/// It is what [`rk_text::number`] answers. Each line of a script has some numbers, so those that say one are read in one pass.
#[inline(always)]
pub fn number(bytes: &[u8], limit: u64) -> Option<u64>
    ensures { result ≡ up_to limit (number_of bytes.now) }
{
    match number_of(bytes) {
        Some(number) => { if number <= limit { Some(number) } else { None } }
        None => rk_text::number(bytes, limit),
    }
}

/// The number, if it is below 2^64. `None` tells nothing.
fn number_of(bytes: &[u8]) -> Option<u64>
    ensures { IfSome result (λ n. number_of bytes.now ≡ Some n) }
{
    if bytes.is_empty() {
        return None;
    }
    let mut number = 0u64;
    for byte in bytes {
        if !byte.is_ascii_digit() {
            return None;
        }
        number = number
            .checked_mul(10)?
            .checked_add(u64::from(*byte - b'0'))?;
    }
    Some(number)
}
