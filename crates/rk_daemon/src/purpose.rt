//! What a handler was started for, as lines of the log say it.
ghost use Rattle.std.specs.Prelude.{◌≡◌, ◌++◌, ◌<◌, IfOk, OnOk, option_copied, option_map, string_bytes};
ghost use Rattle.std.specs.List.{flat_map};
ghost use Rattle.rk_daemon.specs.Purpose.{byte_text, is_plain, key_text, line_text, octal, operation_text, purpose_text, shown_text, IsLineFor};

use rk_conf::{Conf, Line};
use rk_macro::Subject;
use std::alloc::{AllocError, Global};

/// The most bytes of a name or a path that are shown.
const MOST: usize = 128;

/// How many bytes a text takes that says what a handler was started for, if its names are of the usual lengths.
const USUAL: usize = 128;

/// The line that was chosen for what a handler was started for, if that is known. It is picked anew: the configuration never changes.
pub fn line_for<'a>(conf: &'a Conf, subject: Option<&Subject>) -> Option<&'a Line>
    ensures { IsLineFor conf.now (option_copied subject.entry) (option_copied result) }
{
    match subject {
        Some(subject) => {
            let (typ, desc, callout) = (&subject.typ, &subject.desc, &subject.callout);
            conf.pick(subject.op.as_bytes(), typ, desc, callout)
        }
        None => None,
    }
}

/// What a handler was started for, and by which line, as ` (create user "debug:x", uid 1000; line 3, /bin/false)`. It has neither the callout nor a
/// payload. A byte of a name or a path outside printable ASCII, a `"` and a `\` are `\0` and three octal digits, and what is past 128 bytes is `..`. An
/// `Err` is out of memory.
pub fn purpose_of(
    alloc: Global,
    subject: &Subject,
    line: Option<&Line>,
) -> Result<String, AllocError>
    ensures { IfOk result (λ t. string_bytes t ≡ purpose_text subject.now (option_map (λ l. l.now) line.entry)) }
{
    let mut text = String::with_capacity(alloc, USUAL)?;
    put_purpose(&mut text, subject, line)?;
    Ok(text)
}

/// Appends what a handler was started for, and by which line. An `Err` is out of memory, and may leave a part of it.
pub fn put_purpose(
    text: &mut String,
    subject: &Subject,
    line: Option<&Line>,
) -> Result<(), AllocError>
    ensures { OnOk result (string_bytes text.new ≡ string_bytes text.old ++ purpose_text subject.now (option_map (λ l. l.now) line.entry)) }
{
    put_operation(text, subject)?;
    put_key(text, subject)?;
    put_line(text, line)?;
    text.push_str(")")
}

/// The operation, and the type of the key.
fn put_operation(text: &mut String, subject: &Subject) -> Result<(), AllocError>
    ensures { OnOk result (string_bytes text.new ≡ string_bytes text.old ++ operation_text subject.now) }
{
    text.push_str(" (")?;
    put_shown(text, subject.op.as_bytes())?;
    text.push_str(" ")?;
    put_shown(text, subject.typ.as_bytes())
}

/// The description of the key, and the requester.
fn put_key(text: &mut String, subject: &Subject) -> Result<(), AllocError>
    ensures { OnOk result (string_bytes text.new ≡ string_bytes text.old ++ key_text subject.now) }
{
    let uid = subject.uid;
    text.push_str(" \"")?;
    put_shown(text, subject.desc.as_bytes())?;
    write!(text, "\", uid {uid}")
}

/// The line that was chosen, and its program.
fn put_line(text: &mut String, line: Option<&Line>) -> Result<(), AllocError>
    ensures { OnOk result (string_bytes text.new ≡ string_bytes text.old ++ line_text (option_map (λ l. l.now) line.entry)) }
{
    let Some(line) = line else {
        return Ok(());
    };
    let number = line.number;
    write!(text, "; line {number}, ")?;
    put_shown(text, line.prog.as_bytes())
}

/// The first 128 bytes of a name or a path, and `..` if there are more.
fn put_shown(text: &mut String, bytes: &[u8]) -> Result<(), AllocError>
    ensures { OnOk result (string_bytes text.new ≡ string_bytes text.old ++ shown_text bytes.now) }
{
    if bytes.len() > MOST {
        let front = &bytes[..MOST];
        put_bytes(text, front)?;
        return text.push_str("..");
    }
    put_bytes(text, bytes)
}

/// Bytes.
fn put_bytes(text: &mut String, bytes: &[u8]) -> Result<(), AllocError>
    ensures { OnOk result (string_bytes text.new ≡ string_bytes text.old ++ flat_map byte_text bytes.now) }
{
    for byte in bytes {
        put_byte(text, *byte)?;
    }
    Ok(())
}

/// A byte.
fn put_byte(text: &mut String, byte: u8) -> Result<(), AllocError>
    ensures { OnOk result (string_bytes text.new ≡ string_bytes text.old ++ byte_text byte) }
{
    if is_plain(byte) {
        return text.push(char::from(byte));
    }
    text.push_str("\\0")?;
    text.push(octal(byte / 64))?;
    text.push(octal(byte / 8))?;
    text.push(octal(byte))
}

/// Whether the byte is printable ASCII, and neither `"` nor `\`.
fn is_plain(byte: u8) -> bool
    ensures { result ≡ is_plain byte }
{
    byte >= 32 && byte < 127 && byte != b'"' && byte != b'\\'
}

/// The last octal digit.
fn octal(number: u8) -> char
    ensures value { result ≡ octal number }
    ensures small { result < 128 }
{
    char::from(b'0' + number % 8)
}
