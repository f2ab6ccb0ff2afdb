//! What text is.
ghost use Rattle.std.specs.Prelude.{◌≡◌};
ghost use Rattle.std.specs.List.{list_all};
ghost use Rattle.rk_text.specs.Text.{is_text, begins_with, is_plain};

/// How many bytes are few: to look at each takes less than to test many at a time.
const FEW: usize = 16;

/// Whether the bytes are UTF-8 without a zero byte.
pub fn is_text(bytes: &[u8]) -> bool
    ensures { result ≡ is_text bytes.now }
{
    if bytes.len() <= FEW && are_plain(bytes) {
        return true;
    }
    let has_zero = bytes.contains(&0);
    match str::from_utf8(bytes) {
        Ok(_) => !has_zero,
        Err(_) => false,
    }
}

/// Whether each byte is ASCII and none is zero, as in most names.
fn are_plain(bytes: &[u8]) -> bool
    ensures { result ≡ list_all is_plain bytes.now }
{
    bytes.iter().all(|byte| is_plain(*byte))
}

/// Whether a byte is ASCII, and not zero.
fn is_plain(byte: u8) -> bool
    ensures { result ≡ is_plain byte }
{
    byte != 0 && byte < 128
}

/// Whether there is a first byte and it is this one.
pub fn begins_with(byte: u8, bytes: &[u8]) -> bool
    ensures { result ≡ begins_with byte bytes.now }
{
    match bytes.first() {
        Some(first) => *first == byte,
        None => false,
    }
}
