//! What devices of the tests have in common.
ghost use Rattle.std.specs.Prelude.{◌≡◌, ◌≤◌, length};
ghost use Rattle.rk_devices.specs.Counts.{raised};

use std::alloc::{AllocError, Global};

/// One more; the greatest count stays.
pub fn one_more(count: u64) -> u64
    ensures { result ≡ raised count }
{
    if count < u64::MAX { count + 1 } else { count }
}

/// Copies what there is room for to the front of the buffer, and says how many bytes.
pub fn give(bytes: &[u8], buf: &mut [u8]) -> usize
    ensures bound { result ≤ length buf.old }
    ensures same { length buf.new ≡ length buf.old }
    ensures there { result ≤ length bytes.now }
{
    let count = bytes.len().min(buf.len());
    buf[..count].copy_from_slice(&bytes[..count]);
    count
}

/// These bytes, one after the other, and all of them so often. An `Err` is out of memory.
pub fn joined(alloc: Global, parts: &[&[u8]], times: usize) -> Result<Vec<u8>, AllocError> {
    let mut all = Vec::new(alloc);
    for _ in 0..times {
        for part in parts {
            all.extend_from_slice(part)?;
        }
    }
    Ok(all)
}
