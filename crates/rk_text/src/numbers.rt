//! Numbers in decimal digits.
ghost use Rattle.std.specs.Prelude.{◌≡◌};
ghost use Rattle.std.specs.List.{list_all};
ghost use Rattle.std.specs.Char.{is_ascii_digit};
ghost use Rattle.rk_text.specs.Numbers.{number_of, up_to};

/// The number that the bytes say in decimal digits, without a sign; `None` if they say none, or one above the limit. There may be any number of
/// leading zeros.
pub fn number(bytes: &[u8], limit: u64) -> Option<u64>
    ensures { result ≡ up_to limit (number_of bytes.now) }
{
    if !are_digits(bytes) {
        return None;
    }
    let Ok(text) = str::from_utf8(bytes) else {
        return None;
    };
    match text.parse::<u64>() {
        Ok(number) => { if number <= limit { Some(number) } else { None } }
        Err(_) => None,
    }
}

/// Whether each byte is a decimal digit.
fn are_digits(bytes: &[u8]) -> bool
    ensures { result ≡ list_all is_ascii_digit bytes.now }
{
    bytes.iter().all(|byte| byte.is_ascii_digit())
}
