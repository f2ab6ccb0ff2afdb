//! Numbers at the front of bytes, and what follows a length.
ghost use Rattle.std.specs.Prelude.{◌≡◌, ◌≢◌, ◌<◌, ◌^◌, ◌++◌, ℕ, List, length, MatchOption, IfSome, IfNone};
ghost use Rattle.std.specs.Int.{w32, w64, to_be_bytes};
ghost use Rattle.rk_frame.specs.Framing.{frame};

use bytes::Buf;

/// A number of four bytes, and what follows it; `None` for fewer bytes.
pub(crate) fn word(bytes: &[u8]) -> Option<(u32, &[u8])>
    ensures { MatchOption result (length bytes.now < 4) (λ x. bytes.now ≡ to_be_bytes w32 x.0 ++ x.1.now) }
{
    if bytes.len() < 4 {
        return None;
    }
    let mut rest = bytes;
    let number = rest.get_u32();
    Some((number, rest))
}

/// A number of eight bytes, and what follows it; `None` for fewer bytes.
pub(crate) fn long(bytes: &[u8]) -> Option<(u64, &[u8])>
    ensures { MatchOption result (length bytes.now < 8) (λ x. bytes.now ≡ to_be_bytes w64 x.0 ++ x.1.now) }
{
    if bytes.len() < 8 {
        return None;
    }
    let mut rest = bytes;
    let number = rest.get_u64();
    Some((number, rest))
}

/// Bytes after their length of four bytes, and what follows them; `None` if they are not all there.
pub(crate) fn framed(bytes: &[u8]) -> Option<(&[u8], &[u8])>
    ensures found { IfSome result (λ x. (bytes.now ≡ frame x.0.now ++ x.1.now) × (length x.0.now < 2 ^ 32)) }
    ensures only { IfNone result ((body more : List ℕ) → length body < 2 ^ 32 → bytes.now ≢ frame body ++ more) }
{
    let (len, rest) = word(bytes)?;
    let len = len as usize;
    if rest.len() < len {
        return None;
    }
    Some(rest.split_at(len))
}

/// So many bytes, and what follows them; `None` for fewer bytes.
pub(crate) fn array<const N: usize>(bytes: &[u8]) -> Option<([u8; N], &[u8])>
    ensures { MatchOption result (length bytes.now < N) (λ x. (length x.0 ≡ N) × (bytes.now ≡ x.0 ++ x.1.now)) }
{
    let (front, rest) = bytes.split_first_chunk::<N>()?;
    Some((*front, rest))
}
