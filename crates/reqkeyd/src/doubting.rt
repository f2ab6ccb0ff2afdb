//! Warnings of `check`: what is allowed in a configuration, and hardly meant.
ghost use Rattle.std.specs.Prelude.{◌≡◌};
ghost use Rattle.reqkeyd.specs.Doubted.{IsHidden, IsOperation, comment_of, exposed_of, writable_of};

use crate::reason::tell_error;
use rk_conf::{Conf, Line};
use rk_preview::{
    Doubt, exposed, has_comment, hidden_by, is_of_no_request, is_others_to_write, program_behind,
};
use std::fs::Files;
use std::io::Write;
use std::os::unix::fs::PermissionsExt;
use std::{fs, io};

/// That no request has the operation of the line.
fn operation_doubt(line: &Line) -> Option<Doubt>
    ensures { IsOperation line.now result }
{
    if is_of_no_request(line) {
        Some(Doubt::Operation(line.number))
    } else {
        None
    }
}

/// That one of these lines, which stand before it, hides the line.
fn hidden_doubt(before: &[Line], line: &Line) -> Option<Doubt>
    ensures { IsHidden before.now line.now result }
{
    match hidden_by(before, line) {
        Some(earlier) => Some(Doubt::Hidden(line.number, earlier.number)),
        None => None,
    }
}

/// That an argument of the line looks as a comment.
fn comment_doubt(line: &Line) -> Option<Doubt>
    ensures { result ≡ comment_of line.now }
{
    if has_comment(line) {
        Some(Doubt::Comment(line.number))
    } else {
        None
    }
}

/// That a word of a request may be taken for an option of the line's program.
fn exposed_doubt(line: &Line) -> Option<Doubt>
    ensures { result ≡ exposed_of line.now }
{
    match exposed(line) {
        Some(foreign) => Some(Doubt::Exposed(line.number, foreign)),
        None => None,
    }
}

/// That others than its owner may write a file with these permissions.
fn writable_doubt(mode: u32) -> Option<Doubt>
    ensures { result ≡ writable_of mode }
{
    if is_others_to_write(mode) {
        Some(Doubt::Writable)
    } else {
        None
    }
}

/// Warns of what a configuration at this path and of this text has, if it has no fault.
pub fn warn_of<R: Files + AllocGlobal, E: Write>(rt: &R, path: &str, text: &[u8], errors: &mut E) {
    if let Ok(found) = fs::metadata(rt, path) {
        warn(writable_doubt(found.permissions().mode()), errors);
    }
    let Ok(conf) = Conf::read(rt.alloc(), text) else {
        return;
    };
    let lines = conf.lines();
    if lines.is_empty() {
        warn(Some(Doubt::NoLine), errors);
    }
    for (at, line) in lines.iter().enumerate() {
        let (before, _) = lines.split_at(at.min(lines.len()));
        warn(operation_doubt(line), errors);
        warn(hidden_doubt(before, line), errors);
        warn(comment_doubt(line), errors);
        warn(exposed_doubt(line), errors);
        warn_of_program(rt, line, errors);
    }
}

/// Says what is doubted, if anything is.
fn warn<E: Write>(doubt: Option<Doubt>, errors: &mut E) {
    if let Some(doubt) = doubt {
        let _ = writeln!(errors, "reqkeyd: {doubt}");
    }
}

/// Warns of a program that can't be started: that of the line, and the one behind timeout(1) or env(1).
fn warn_of_program<R: Files + AllocGlobal, E: Write>(rt: &R, line: &Line, errors: &mut E) {
    warn_of_path(rt, line.number, line.prog.as_str(), errors);
    if let Ok(Some(path)) = program_behind(rt.alloc(), line) {
        warn_of_path(rt, line.number, path, errors);
    }
}

/// Warns of a program that isn't there, or that nobody may execute.
fn warn_of_path<R: Files + AllocGlobal, E: Write>(
    rt: &R,
    number: usize,
    path: &str,
    errors: &mut E,
) {
    let error = match fs::metadata(rt, path) {
        Ok(found) if found.is_file() && found.permissions().mode() & 0o111 != 0 => return,
        Ok(_) => io::Error::from_raw_os_error(libc::EACCES),
        Err(error) => error,
    };
    let _ = writeln!(
        errors,
        "reqkeyd: line {number}: its program can't be started"
    );
    tell_error(rt.alloc(), path, error, errors);
}
