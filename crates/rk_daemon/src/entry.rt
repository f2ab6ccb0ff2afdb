//! A line of the log.
ghost use Rattle.std.specs.Prelude.{◌≡◌, ◌*◌, ◌↔◌, pos, IfSome, IsSome, Some};
ghost use Rattle.jiff.specs.Words.{civil_nanos, IsTimestampNanos};
ghost use Rattle.rk_daemon.specs.Entry.{entry_text, prefix_text};

use crate::style::{Style, level_name, priority};
use jiff::Timestamp;
use jiff::civil::DateTime;
use jiff::tz::Offset;
use log::Level;
use std::fmt;
use std::fmt::{Display, Formatter};

/// How a line of the log begins: `<4>` for the journal, which has the time itself, and else `2026-11-26T14:46:53Z warn: `, with `-` where the clock can't be
/// read.
#[derive(Clone, Copy)]
pub struct Prefix {
    /// How it begins.
    pub style: Style,
    /// The time of day, by UTC.
    pub time: Option<DateTime>,
    /// How important it is.
    pub level: Level,
}

impl Display for Prefix {
    ghost output = { λ h. Some (prefix_text h) };

    fn fmt<W: fmt::Write>(&self, f: &mut Formatter<W>) -> fmt::Result {
        match (self.style, self.time) {
            (Style::Journal, _) => write!(f, "<{}>", priority(self.level)),
            (Style::Timed, Some(time)) => write!(f, "{time}Z {}: ", level_name(self.level)),
            (Style::Timed, None) => write!(f, "- {}: ", level_name(self.level)),
        }
    }
}

/// A line of the log, as it is written.
#[derive_where(Clone, Copy)]
pub struct Entry<'a, D> {
    /// How it begins.
    pub prefix: Prefix,
    /// What it says.
    pub text: &'a D,
}

impl<'a, D: Display> Display for Entry<'a, D> {
    ghost output = { λ e. entry_text e.prefix (D.output e.text.now) };

    fn fmt<W: fmt::Write>(&self, f: &mut Formatter<W>) -> fmt::Result {
        write!(f, "{}{}", self.prefix, self.text)
    }
}

/// What the calendar and the clock of UTC show so many seconds after 1970 has begun; `None` past the year 9999.
pub fn moment(seconds: u64) -> Option<DateTime>
    ensures some { IsSome result ↔ IsTimestampNanos (pos (seconds * 1_000_000_000)) }
    ensures value { IfSome result (λ time. civil_nanos time ≡ pos (seconds * 1_000_000_000)) }
{
    let seconds = i64::try_from(seconds).ok()?;
    let timestamp = Timestamp::from_second(seconds).ok()?;
    Some(Offset::UTC.to_datetime(timestamp))
}
