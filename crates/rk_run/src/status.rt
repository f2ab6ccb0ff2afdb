//! How a program has ended, as a status.
ghost use Rattle.std.specs.Prelude.{◌≡◌};
ghost use Rattle.rk_run.specs.Ending.{status_of};

use std::os::unix::process::ExitStatusExt;
use std::process::ExitStatus;

/// The status that a shell tells: the program's own, or 128 and the number of the signal that ended it.
pub fn status_of(status: ExitStatus) -> u8
    ensures { result ≡ status_of status }
{
    match (status.code(), status.signal()) {
        (Some(code), _) => u8::try_from(code).unwrap_or(u8::MAX),
        (None, Some(signal)) => u8::try_from(signal).unwrap_or(u8::MAX).saturating_add(128),
        (None, None) => u8::MAX,
    }
}
