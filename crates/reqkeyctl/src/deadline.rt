//! Until when a daemon is waited for.
ghost use Rattle.std.specs.Prelude.{◌+◌, ◌<◌, ◌≤◌, ◌≡◌, ◌↔◌, IfSome, IsNone};
ghost use Rattle.std.specs.Duration.{as_nanos};

use std::io;
use std::io::ErrorKind;
use std::time::{Clock, Duration, Instant};

/// A moment, by where the waiting began and how long it may take.
#[derive(Clone, Copy)]
pub struct Deadline {
    /// When it began.
    start: Instant,
    /// For how long it may go on.
    limit: Duration,
}

impl Deadline {
    /// So many seconds from now; `None` for 0, which is no limit. An `Err` is that of the clock.
    pub fn after<R: Clock>(rt: &R, seconds: u32) -> io::Result<Option<Deadline>> {
        if seconds == 0 {
            return Ok(None);
        }
        Ok(Some(Deadline {
            start: Instant::now(rt)?,
            limit: Duration::from_secs(u64::from(seconds)),
        }))
    }

    /// How much time is left. `TimedOut` if none is; any other `Err` is that of the clock.
    pub fn left<R: Clock>(&self, rt: &R) -> io::Result<Duration> {
        match left_of(self.limit, self.start.elapsed(rt)?) {
            Some(left) => Ok(left),
            None => Err(io::Error::from(ErrorKind::TimedOut)),
        }
    }
}

/// What is left of a time after some of it, if anything is.
fn left_of(limit: Duration, spent: Duration) -> Option<Duration>
    ensures some { IfSome result (λ left. (as_nanos left + as_nanos spent ≡ as_nanos limit) × (0 < as_nanos left)) }
    ensures none { IsNone result ↔ (as_nanos limit ≤ as_nanos spent) }
{
    match limit.checked_sub(spent) {
        Some(left) if !left.is_zero() => Some(left),
        _ => None,
    }
}
