//! The numbers of a request, among options.
ghost use Rattle.std.specs.Prelude.{◌≡◌};
ghost use Rattle.rk_options.specs.Said.{said_by};
ghost use Rattle.rk_preview.specs.Numbers.{key_in};

use rk_names::Serial;
use rk_options::Options;

/// The key under construction, the requester and its rings.
#[derive(Clone, Copy, Debug, PartialEq, Eq)]
pub struct Numbers {
    /// The key under construction.
    pub key: Serial,
    /// The requester's uid.
    pub uid: u32,
    /// The requester's gid.
    pub gid: u32,
    /// The requester's thread ring, or 0.
    pub thread: u32,
    /// The requester's process ring, or 0.
    pub process: u32,
    /// The requester's session ring, or 0.
    pub session: u32,
}

/// The greatest serial, of a ring too.
const MAX_SERIAL: u32 = 2_147_483_647;

impl Numbers {
    ghost use Rattle.rk_preview.specs.Numbers.{numbers_in};

    /// The numbers that options give: `--key` from 1 to 2147483647 (1), `--uid` and `--gid` up to 4294967295 (0), and `--thread`, `--process` and `--session`
    /// up to 2147483647 (0), each in decimal digits without a sign. `None` if one is none of these, or the words are no options.
    pub fn read(options: &Options<'_>) -> Option<Numbers>
        ensures { result ≡ numbers_in (said_by options.now) }
    {
        Some(Numbers {
            key: key(options)?,
            uid: options.number_or("--uid", u32::MAX, 0)?,
            gid: options.number_or("--gid", u32::MAX, 0)?,
            thread: options.number_or("--thread", MAX_SERIAL, 0)?,
            process: options.number_or("--process", MAX_SERIAL, 0)?,
            session: options.number_or("--session", MAX_SERIAL, 0)?,
        })
    }
}

/// The key.
fn key(options: &Options<'_>) -> Option<Serial>
    ensures { result ≡ key_in (said_by options.now) }
{
    Serial::new(options.number_or("--key", u32::MAX, 1)?)
}
