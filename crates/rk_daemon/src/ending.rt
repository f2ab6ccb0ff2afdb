//! How a handler has ended, as a line of the log.
ghost use Rattle.std.specs.Prelude.{◌≡◌, ◌++◌, None, Some, MatchOption, OnOk, string_bytes};
ghost use Rattle.std.specs.Option.{option_and_then};
ghost use Rattle.rk_daemon.specs.Ending.{errno_text, error_text, how_text, level_of, named_text, natural, output_text, words_text};

use crate::purpose::put_purpose;
use log::Level;
use rk_conf::Line;
use rk_devices::{Driven, OutputFault};
use rk_machine::How;
use rk_macro::{ExpandFault, Subject};
use rk_names::Serial;
use std::alloc::{AllocError, Global};

/// A handler that has ended, or was not started.
#[derive(Clone, Copy)]
pub struct End<'s, 'c> {
    /// The key that it was to make, by which the line names it.
    pub key: Serial,
    /// What it was started for, if that is still known.
    pub subject: Option<&'s Subject>,
    /// The line of the configuration that was chosen, if one fits.
    pub line: Option<&'c Line>,
    /// How it has ended.
    pub driven: Driven,
    /// Whether it made its key.
    pub made: bool,
    /// Whether it is a plain one whose output was no request.
    pub malformed: bool,
    /// The system's error number of a start that failed, if it is known.
    pub error: Option<u32>,
}

impl<'s, 'c> End<'s, 'c> {
    ghost use Rattle.std.specs.Prelude.{◌≡◌, IfOk, string_bytes};
    ghost use Rattle.rk_daemon.specs.Ending.{end_text};

    /// The line, as `handler of key 12 (create user "debug:x", uid 1000; line 3, /bin/false): exit status 3`. It has neither the callout nor a payload. A
    /// byte of a name or a path outside printable ASCII, a `"` and a `\` are `\0` and three octal digits, and what is past 128 bytes is `..`.
    pub fn text(&self, alloc: Global) -> Result<String, AllocError>
        ensures { IfOk result (λ t. string_bytes t ≡ end_text self.now) }
    {
        let mut text = String::new(alloc);
        let key = self.key.get();
        write!(text, "handler of key {key}")?;
        if let Some(subject) = self.subject {
            put_purpose(&mut text, subject, self.line)?;
        }
        text.push_str(": ")?;
        put_how(&mut text, self.driven, self.made, self.error)?;
        put_output(&mut text, self.malformed)?;
        Ok(text)
    }
}

/// How important the line is of a handler that has ended so, by whether it made its key. One that has exited with 0 and made it is what is to be.
pub fn level_of(driven: Driven, made: bool) -> Level
    ensures { result ≡ level_of driven made }
{
    match driven {
        Driven::Ended(How::Exit(0)) if made => Level::Debug,
        Driven::NotStarted => Level::Info,
        _ => Level::Warn,
    }
}

/// The system's error number; none is below 0.
pub fn error_number(error: Option<i32>) -> Option<u32>
    ensures { result ≡ option_and_then natural error }
{
    match error {
        Some(number) => u32::try_from(number).ok(),
        None => None,
    }
}

/// How it has ended.
fn put_how(
    text: &mut String,
    driven: Driven,
    made: bool,
    error: Option<u32>,
) -> Result<(), AllocError>
    ensures { OnOk result (string_bytes text.new ≡ string_bytes text.old ++ how_text driven made error) }
{
    match driven {
        Driven::Ended(How::Exit(0)) if !made => {
            text.push_str("exit status 0, and the key was not made")
        }
        Driven::Ended(How::Exit(status)) => write!(text, "exit status {status}"),
        Driven::Ended(How::Signal) => text.push_str("killed by a signal"),
        Driven::Ended(How::Fault) => text.push_str("it could not be read or waited for"),
        Driven::NoPayload(OutputFault::Empty) => {
            text.push_str("exit status 0, and no payload (0 bytes)")
        }
        Driven::NoPayload(OutputFault::TooLong) => {
            text.push_str("exit status 0, and no payload (more than 32767 bytes)")
        }
        Driven::NotStarted => text.push_str("no line fits"),
        Driven::NotMade(fault) => text.push_str(words_text(fault)),
        Driven::NoMemory => text.push_str("no memory for its start"),
        Driven::StartFailed => put_error(text, error),
        Driven::ReadFailed => text.push_str("its output could not be read"),
        Driven::WaitFailed => text.push_str("the system does not say how it ended"),
    }
}

/// That its output was no request.
fn put_output(text: &mut String, malformed: bool) -> Result<(), AllocError>
    ensures { OnOk result (string_bytes text.new ≡ string_bytes text.old ++ output_text malformed) }
{
    if malformed {
        return text.push_str("; its output is no request");
    }
    Ok(())
}

/// Why a start failed.
fn put_error(text: &mut String, error: Option<u32>) -> Result<(), AllocError>
    ensures { OnOk result (string_bytes text.new ≡ string_bytes text.old ++ error_text error) }
{
    match error {
        Some(number) => put_named(text, number),
        None => text.push_str("start failed"),
    }
}

/// That a start failed with this error number, by its name and meaning if those are known.
fn put_named(text: &mut String, number: u32) -> Result<(), AllocError>
    ensures { OnOk result (string_bytes text.new ≡ string_bytes text.old ++ named_text number (errno_text number)) }
{
    match errno_text(number) {
        Some(named) => write!(text, "start failed: {named}"),
        None => write!(text, "start failed: error {number}"),
    }
}

/// Why the words of a command can't be made.
fn words_text(fault: ExpandFault) -> &'static str
    ensures { result.now ≡ words_text fault }
{
    match fault {
        ExpandFault::NoKey =>
            "X1: an argument %{..} is the payload of a key that the requester doesn't find",
        ExpandFault::NotText => "X2: a payload is no text",
        ExpandFault::TooLong => "X3: the words are more than 65536 bytes",
        ExpandFault::NoMemory => "X4: no memory",
    }
}

/// The name and meaning of an error number, of those that a start may have (errno(3)).
fn errno_text(number: u32) -> Option<&'static str>
    ensures { MatchOption result (errno_text number ≡ None) (λ named. errno_text number ≡ Some named.now) }
{
    match number {
        1 => Some("EPERM, operation not permitted"),
        2 => Some("ENOENT, no such file or directory"),
        5 => Some("EIO, input/output error"),
        7 => Some("E2BIG, argument list too long"),
        8 => Some("ENOEXEC, exec format error"),
        11 => Some("EAGAIN, no process can be made now"),
        12 => Some("ENOMEM, out of memory"),
        13 => Some("EACCES, permission denied"),
        20 => Some("ENOTDIR, not a directory"),
        21 => Some("EISDIR, is a directory"),
        23 => Some("ENFILE, too many open files in system"),
        24 => Some("EMFILE, too many open files"),
        26 => Some("ETXTBSY, text file busy"),
        36 => Some("ENAMETOOLONG, file name too long"),
        40 => Some("ELOOP, too many levels of symbolic links"),
        _ => None,
    }
}
