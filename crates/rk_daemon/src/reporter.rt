//! The one place that makes lines of the log.
ghost use Rattle.std.specs.Prelude.{◌≡◌, ◌/◌, Some};
ghost use Rattle.log.specs.Level.{allows};

use crate::by_kind::ByKind;
use crate::entry::{Entry, Prefix, moment};
use crate::kind::Kind;
use crate::record::Keeper;
use crate::style::Style;
use crate::tally::{Tally, tallies};
use jiff::civil::DateTime;
use log::kv::Source;
use log::span::Spans;
use log::{Level, LevelFilter, Log, Metadata, Record};
use rk_hall::Recorded;
use rk_volumes::{Head, Seal, Sum};
use std::alloc::Global;
use std::fmt::Display;
use std::io;
use std::io::Eprint;
use std::sync::Wait;
use std::time::Clock;

/// What all threads share of the log.
#[derive(Drop)]
pub struct LogState {
    /// How important a line has to be to be written.
    least: LevelFilter,
    /// How each line begins.
    style: Style,
    /// How many lines of each kind were written.
    tallies: ByKind<Tally>,
}

impl LogState {
    /// A log of lines that are at least so important.
    pub fn new(level: Level, style: Style) -> LogState {
        LogState {
            least: level.to_level_filter(),
            style,
            tallies: tallies(),
        }
    }
}

/// The whole minutes of so many seconds.
pub fn minute_of(seconds: u64) -> u64
    ensures { result ≡ seconds / 60 }
{
    seconds / 60
}

/// A log on standard error. A line that is not important enough is dropped, and so is one of a kind of which there were many in this minute.
#[derive_where(Clone, Copy)]
pub struct Reporter<'a, R> {
    /// What writes, and has the clock.
    rt: &'a R,
    /// What all threads share.
    state: &'a LogState,
}

impl<'a, R: Eprint + Clock + Wait> Reporter<'a, R> {
    /// A log that writes by this handle.
    pub fn new(rt: &'a R, state: &'a LogState) -> Reporter<'a, R> {
        Reporter { rt, state }
    }

    /// Whole seconds of the monotonic clock, 0 if it can't be read.
    pub fn seconds(&self) -> u64 {
        match self.rt.monotonic() {
            Ok(passed) => passed.as_secs(),
            Err(_) => 0,
        }
    }

    /// Writes a line that an operator has asked for, whatever the level of the log.
    pub fn tell<D: Display>(&self, text: &D) {
        self.write(Level::Info, text);
    }

    /// The minute of the monotonic clock.
    pub fn minute(&self) -> u64 {
        minute_of(self.seconds())
    }

    /// Writes how many lines of each kind were left out in the minutes before this one.
    pub fn tell_left_out(&self, minute: u64) {
        for kind in Kind::ALL {
            let count = self.state.tallies.of(kind).take_left_out(self.rt, minute);
            if count > 0 {
                self.write(Level::Warn, &format_args!("{kind}: and {count} more"));
            }
        }
    }

    /// The time of day.
    fn time(&self) -> Option<DateTime> {
        moment(self.rt.since_1970().ok()?.as_secs())
    }

    /// Writes a line. That it can't be written is passed over.
    // (It is not inlined: a line takes 2 KB of the stack, which each worker would have in memory while it waits.)
    #[cold]
    #[inline(never)]
    fn write<D: Display>(&self, level: Level, text: &D) {
        let prefix = Prefix {
            style: self.state.style,
            time: self.time(),
            level,
        };
        let _ = self.rt.eprintln(Entry { prefix, text });
    }
}

impl<'a, R: Eprint + Clock + Wait> Log for Reporter<'a, R> {
    ghost enables = { λ r level target. Some (allows r.state.now.least level) };

    fn enabled(&self, metadata: &Metadata<'_>) -> bool {
        self.state.least.allows(metadata.level())
    }

    fn log<D: Display, K: Source, S: Spans>(&self, record: &Record<'_, D, K, S>) {
        if !self.state.least.allows(record.level()) {
            return;
        }
        let tally = self.state.tallies.of(Kind::of(record.target()));
        if tally.admits(self.rt, self.minute()) {
            self.write(record.level(), record.args());
        }
    }

    fn flush(&self) {}

    fn target(&self) -> &str {
        ""
    }
}

/// Lines of others, as `volume HALL INDEX STEPS`, are written as they are.
impl<'a, R: Eprint> Eprint for Reporter<'a, R> {
    fn eprint<D: Display + Drop>(&self, value: D) -> io::Result<()> {
        self.rt.eprint(value)
    }

    fn eprintln<D: Display + Drop>(&self, value: D) -> io::Result<()> {
        self.rt.eprintln(value)
    }
}

impl<'a, R: Keeper> Keeper for Reporter<'a, R> {
    fn keep(
        &self,
        alloc: Global,
        folder: &str,
        seal: &Seal,
        head: &Head,
        steps: &[Recorded],
    ) -> io::Result<Sum> {
        self.rt.keep(alloc, folder, seal, head, steps)
    }
}
