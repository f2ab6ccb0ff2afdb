//! Why a fault came, in a line of its own after it.
ghost use Rattle.std.specs.Prelude.{◌≡◌};
ghost use Rattle.rk_daemon.specs.Settings.{set_by};
ghost use Rattle.reqkeyd.specs.Reason.{file_of};

use rk_daemon::{Fault, Settings};
use rk_preview::rule;
use std::alloc::Global;
use std::fmt::Display;
use std::io;
use std::io::Write;

/// Tells of a fault of the start which file it is of, and the system's reason, as `  /run/x/s: No such file or directory`; or the rule of a line in words.
pub fn tell_reason<E: Write>(
    alloc: Global,
    settings: &Settings<'_>,
    fault: &Fault,
    errors: &mut E,
) {
    let file = file_of(settings, fault);
    match fault {
        Fault::Conf(fault) => tell(file, &rule(fault.kind), errors),
        Fault::Recorded => tell(file, &"it has files of a record", errors),
        Fault::Unreadable(error)
        | Fault::Random(error)
        | Fault::Record(error)
        | Fault::Keyutils(error)
        | Fault::Socket(error)
        | Fault::Stream(error) => tell_error(alloc, file, *error, errors),
        Fault::NoMemory => {}
    }
}

/// The file that a fault of the start is of, or what else it is of.
fn file_of<'a>(settings: &Settings<'a>, fault: &Fault) -> &'a str
    ensures { result.now ≡ file_of (set_by settings.now) fault.now }
{
    match fault {
        Fault::Unreadable(_) | Fault::Conf(_) => settings.conf,
        Fault::Random(_) => "getrandom(2)",
        Fault::Record(_) | Fault::Recorded => settings.folder.unwrap_or(""),
        Fault::Keyutils(_) => settings.keyutils.unwrap_or(""),
        Fault::Socket(_) => settings.socket,
        Fault::Stream(_) => "/dev/null",
        Fault::NoMemory => "",
    }
}

/// Tells the system's reason, without its number.
pub fn tell_error<E: Write>(alloc: Global, path: &str, error: io::Error, errors: &mut E) {
    let Ok(text) = format!(in alloc; "{error}") else {
        return;
    };
    tell(path, &without_number(text.as_str()), errors);
}

/// Tells what is wrong with a file.
fn tell<E: Write, D: Display>(path: &str, reason: &D, errors: &mut E) {
    let _ = writeln!(errors, "  {path}: {reason}");
}

/// The words of an error, without its number.
fn without_number(text: &str) -> &str {
    match text.split_once(" (os error ") {
        Some((words, _)) => words,
        None => text,
    }
}
