//! How lines of the log begin.
ghost use Rattle.std.specs.Prelude.{◌≡◌};
ghost use Rattle.rk_daemon.specs.Log.{level_text, names_stream, priority};

use log::Level;
use rk_text::number;
use std::fs::Files;
use std::os::unix::fs::MetadataExt;
use std::rt::Env;
use std::{env, fs};

/// How each line begins.
#[derive(Clone, Copy, Debug, PartialEq, Eq)]
pub enum Style {
    /// With its priority, as the journal reads it (sd-daemon(3)).
    Journal,
    /// With the time of day and its level.
    Timed,
}

/// Where the system tells of standard error.
const ERRORS: &str = "/proc/self/fd/2";

impl Style {
    /// The style for standard error: that of the journal where it is the very stream that JOURNAL_STREAM names in the environment (systemd.exec(5)). Who
    /// starts the daemon by hand may have that variable, too, of a journal that is not its standard error.
    pub fn of_errors<R: Env + Files + AllocGlobal>(rt: &R) -> Style {
        let Ok(stream) = env::var(rt, "JOURNAL_STREAM") else {
            return Style::Timed;
        };
        let Ok(found) = fs::metadata(rt, ERRORS) else {
            return Style::Timed;
        };
        if is_stream(stream.as_str(), found.dev(), found.ino()) {
            Style::Journal
        } else {
            Style::Timed
        }
    }
}

/// Whether a text is that of this device and this file of it: both numbers, with a colon between.
fn is_stream(text: &str, device: u64, file: u64) -> bool
    ensures { result ≡ names_stream text.now device file }
{
    match text.split_once(':') {
        Some((first, second)) => {
            number(first.as_bytes(), u64::MAX) == Some(device)
                && number(second.as_bytes(), u64::MAX) == Some(file)
        }
        None => false,
    }
}

/// The priority of a level (syslog(3)).
pub fn priority(level: Level) -> u8
    ensures { result ≡ priority level }
{
    match level {
        Level::Error => 3,
        Level::Warn => 4,
        Level::Info => 6,
        Level::Debug | Level::Trace => 7,
    }
}

/// The name of a level, as the option `--log` has it.
pub fn level_name(level: Level) -> &'static str
    ensures { result.now ≡ level_text level }
{
    match level {
        Level::Error => "error",
        Level::Warn => "warn",
        Level::Info => "info",
        Level::Debug | Level::Trace => "debug",
    }
}
