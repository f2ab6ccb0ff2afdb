//! What an operator sets.
ghost use Rattle.std.specs.Prelude.{◌≡◌, codes, map, option_map, string_bytes};
ghost use Rattle.std.specs.List.{list_all};
ghost use Rattle.rk_options.specs.Said.{said_by};
ghost use Rattle.rk_options.specs.Values.{number_in, number_up_to};
ghost use Rattle.rk_daemon.specs.Settings.{flag_in, is_octal_digit, level_in, level_said, library_in, log_set_by, log_set_in, permissions_said, set_by, set_in, settings_said, unless_zero};

use log::Level;
use rk_options::Options;
use rk_variables::is_library;

/// The names of the options.
const NAMES: [&str; 13] = [
    "--socket",
    "--conf",
    "--negative",
    "--sessions",
    "--clients",
    "--mode",
    "--keyutils",
    "--record",
    "--until-eof",
    "--idle",
    "--log",
    "--slow",
    "--status",
];

/// Those of them that have no value.
const FLAGS: [&str; 1] = ["--until-eof"];

/// What an operator sets of the log.
#[derive(Clone, Copy, Debug)]
pub struct LogSettings {
    /// The least important lines that are written.
    pub level: Level,
    /// After how many seconds a handler that still runs is a warning; 0 for never.
    pub slow: u32,
    /// After how many seconds a line tells the daemon's figures, again and again; 0 for never.
    pub status: u32,
}

/// What an operator sets.
#[derive(Clone, Copy, Debug)]
pub struct Settings<'a> {
    /// The path of the socket.
    pub socket: &'a str,
    /// The path of the configuration.
    pub conf: &'a str,
    /// For how many seconds a key is negative whose handler did not complete it.
    pub negative: u32,
    /// How many connections are served at a time, 1 to 64.
    pub sessions: u32,
    /// After how many connections it ends; 0 for never.
    pub clients: u32,
    /// Who may connect: the permission bits of the socket's file, at most 0o777.
    pub mode: u32,
    /// The library that plain handlers preload, by which keyutils' calls are the daemon's.
    pub keyutils: Option<&'a str>,
    /// The folder into which the volumes of the record are written.
    pub folder: Option<&'a str>,
    /// Whether it ends when standard input ends.
    pub until_eof: bool,
    /// For how many seconds a client that is read may be silent; 0 for any time.
    pub idle: u32,
    /// What is written of what happens.
    pub log: LogSettings,
}

impl<'a> Settings<'a> {
    /// The settings that the words say: options with their values, as `--clients 2` or `--clients=2`, in any order. `None` for a usage error: a name has no
    /// value, is unknown or there twice, a path is missing, or a value is no number within its bounds. `--negative` (60) and `--clients` (0) are decimal
    /// digits up to 4294967295, `--sessions` (64) from 1 to 64, and `--mode` (600) octal digits up to 777; none has a sign. `--keyutils` is an absolute path
    /// without a space or a colon, and there is none unless it is given; neither is there a `--record`. `--until-eof` is a flag. `--log` is `error`, `warn`,
    /// `info` or `debug` (`warn`), and `--idle` (0), `--slow` (60) and `--status` (0) are seconds up to 4294967295.
    pub fn read(words: &'a [String]) -> Option<Settings<'a>>
        ensures { option_map set_by result ≡ settings_said (map string_bytes words.now) }
    {
        Settings::of(&Options {
            words,
            flags: &FLAGS,
        })
    }

    /// The settings that the options make.
    fn of(options: &Options<'a>) -> Option<Settings<'a>>
        ensures { option_map set_by result ≡ set_in (said_by options.now) }
    {
        if !options.are_known(&NAMES) {
            return None;
        }
        Some(Settings {
            socket: options.value_of("--socket")??,
            conf: options.value_of("--conf")??,
            negative: options.number_or("--negative", u32::MAX, 60)?,
            sessions: workers(options)?,
            clients: options.number_or("--clients", u32::MAX, 0)?,
            mode: mode(options)?,
            keyutils: library(options)?,
            folder: options.value_of("--record")?,
            until_eof: until_eof(options)?,
            idle: options.number_or("--idle", u32::MAX, 0)?,
            log: LogSettings::of(options)?,
        })
    }
}

impl LogSettings {
    /// What the options set of the log.
    fn of(options: &Options<'_>) -> Option<LogSettings>
        ensures { option_map log_set_by result ≡ log_set_in (said_by options.now) }
    {
        Some(LogSettings {
            level: level(options)?,
            slow: options.number_or("--slow", u32::MAX, 60)?,
            status: options.number_or("--status", u32::MAX, 0)?,
        })
    }
}

/// Whether the flag is there.
fn until_eof(options: &Options<'_>) -> Option<bool>
    ensures { result ≡ flag_in (codes "--until-eof") (said_by options.now) }
{
    match options.value_of("--until-eof")? {
        None => Some(false),
        Some("") => Some(true),
        Some(_) => None,
    }
}

/// The level of the log.
fn level(options: &Options<'_>) -> Option<Level>
    ensures { result ≡ level_in (codes "--log") (said_by options.now) }
{
    match options.value_of("--log")? {
        Some(word) => level_named(word),
        None => Some(Level::Warn),
    }
}

/// The level with this name.
pub fn level_named(word: &str) -> Option<Level>
    ensures { result ≡ level_said word.now }
{
    match word {
        "error" => Some(Level::Error),
        "warn" => Some(Level::Warn),
        "info" => Some(Level::Info),
        "debug" => Some(Level::Debug),
        _ => None,
    }
}

/// The number of workers.
fn workers(options: &Options<'_>) -> Option<u32>
    ensures { result ≡ unless_zero (number_in (codes "--sessions") 64 (number_up_to 64) (said_by options.now)) }
{
    match options.number_or("--sessions", 64, 64)? {
        0 => None,
        number => Some(number),
    }
}

/// The permission bits.
fn mode(options: &Options<'_>) -> Option<u32>
    ensures { result ≡ number_in (codes "--mode") 0o600 permissions_said (said_by options.now) }
{
    match options.value_of("--mode")? {
        Some(text) => permissions(text),
        None => Some(0o600),
    }
}

/// The library.
fn library<'a>(options: &Options<'a>) -> Option<Option<&'a str>>
    ensures { option_map (option_map (λ s. s.now)) result ≡ library_in (codes "--keyutils") (said_by options.now) }
{
    match options.value_of("--keyutils")? {
        Some(path) => if is_library(path) {
            Some(Some(path))
        } else {
            None
        },
        None => Some(None),
    }
}

/// Permission bits, in octal digits.
fn permissions(text: &str) -> Option<u32>
    ensures { result ≡ permissions_said text.now }
{
    if !are_octal(text) {
        return None;
    }
    let Ok(bits) = u32::from_str_radix(text, 8) else {
        return None;
    };
    if bits <= 0o777 { Some(bits) } else { None }
}

/// Whether each byte is an octal digit.
fn are_octal(text: &str) -> bool
    ensures { result ≡ list_all is_octal_digit text.now }
{
    text.as_bytes()
        .iter()
        .all(|byte| matches!(*byte, b'0'..=b'7'))
}
