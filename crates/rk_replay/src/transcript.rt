//! The lines that a run of a script writes.
ghost use Rattle.std.specs.Prelude.{◌≡◌, ◌++◌, ◌+◌, ◌*◌, ◌<◌, true, codes, decimal, slice_index, [], OnOk, IfSome};
ghost use Rattle.std.specs.List.{flat_map};
ghost use Rattle.hex.specs.Hex.{encode_lower, upper_digits};
ghost use Rattle.rk_replay.specs.Writing.{byte_text, word_text, command_text, start_text, line_text, output_line};
ghost use Rattle.rk_replay.specs.Writing.{fault_line, conf_line, fault_code, kind_text, is_plain};

use itoa::Buffer;
use rk_conf::{ConfFault, Word};
use rk_macro::Command;
use rk_served::Output;
use std::alloc::{AllocError, Global};
use std::marker::Model;
use thiserror::Error;

/// Why a line of a script changed nothing.
#[derive(Clone, Copy, Debug, PartialEq, Eq, Error)]
pub enum LineFault {
    /// It is no line of a script.
    #[error("it is no line of a script")]
    NotALine,
    /// The session or construction that it names is not at that point.
    #[error("the session or construction that it names is not at that point")]
    Unknown,
}

impl LineFault {
    /// Its code, as it is written: `S1` or `S2`.
    pub fn code(self) -> &'static str
        ensures { result.now ≡ fault_code self }
    {
        match self {
            LineFault::NotALine => "S1",
            LineFault::Unknown => "S2",
        }
    }
}

/// The lines that a run of a script has written so far. In a clause they are their bytes.
#[derive(Debug, Drop)]
pub struct Transcript {
    /// The lines, each with its newline.
    text: Vec<u8>,
}

impl Model for Transcript {
    ghost use Rattle.std.specs.Prelude.{List, ℕ};

    ghost Value = { List ℕ };

    ghost view = { λ t. t.text.items };
}

impl Transcript {
    /// No line yet. It takes no memory.
    pub fn new(alloc: Global) -> Transcript
        ensures { result ≡ [] }
    {
        Transcript {
            text: Vec::new(alloc),
        }
    }

    /// The bytes of the lines.
    pub fn as_bytes(&self) -> &[u8]
        ensures { result.now ≡ self.now }
    {
        &self.text
    }

    /// Writes the line of an output.
    pub fn tell(&mut self, output: &Output) -> Result<(), AllocError>
        ensures { OnOk result (self.new ≡ self.old ++ output_line output.now) }
    {
        put_output(&mut self.text, output)
    }

    /// Writes that a line of the script, by its number from 1, changed nothing.
    pub fn refuse(&mut self, number: u64, fault: LineFault) -> Result<(), AllocError>
        ensures { OnOk result (self.new ≡ self.old ++ fault_line number fault) }
    {
        put_fault(&mut self.text, b"fault ", number, fault.code())
    }

    /// Writes that the configuration is refused.
    pub fn refuse_conf(&mut self, fault: ConfFault) -> Result<(), AllocError>
        ensures { OnOk result (self.new ≡ self.old ++ conf_line fault) }
    {
        put_fault(
            &mut self.text,
            b"conf ",
            fault.line as u64,
            fault.kind.code(),
        )
    }
}

/// A fault of a line: what begins the line of the output, the number, and the code.
fn put_fault(text: &mut Vec<u8>, front: &[u8], number: u64, code: &str) -> Result<(), AllocError>
    ensures { OnOk result (text.new.items ≡ text.old.items ++ line_text (front.now ++ decimal number ++ codes " " ++ code.now)) }
{
    text.extend_from_slice(front)?;
    put_number(text, number)?;
    text.extend_from_slice(b" ")?;
    text.extend_from_slice(code.as_bytes())?;
    text.extend_from_slice(b"\n")
}

fn put_output(text: &mut Vec<u8>, output: &Output) -> Result<(), AllocError>
    ensures { OnOk result (text.new.items ≡ text.old.items ++ output_line output.now) }
{
    match output {
        Output::ToClient(client, bytes) => put_frame(text, b"to ", *client, bytes.as_slice()),
        Output::ToHandler(key, bytes) => {
            put_frame(text, b"tohandler ", key.get(), bytes.as_slice())
        }
        Output::Start(key, command) => put_start(text, key.get(), command),
        Output::Shut(client) => put_shut(text, b"shut ", *client),
        Output::ShutHandler(key) => put_shut(text, b"shuthandler ", key.get()),
    }
}

/// A frame to someone: what begins the line, and a number.
fn put_frame(text: &mut Vec<u8>, front: &[u8], number: u32, bytes: &[u8]) -> Result<(), AllocError>
    ensures { OnOk result (text.new.items ≡ text.old.items ++ line_text (front.now ++ decimal number ++ codes " " ++ encode_lower bytes.now)) }
{
    text.extend_from_slice(front)?;
    put_number(text, u64::from(number))?;
    text.extend_from_slice(b" ")?;
    put_digits(text, bytes)?;
    text.extend_from_slice(b"\n")
}

/// Bytes as hexadecimal digits, which are written where they are to stand.
fn put_digits(text: &mut Vec<u8>, bytes: &[u8]) -> Result<(), AllocError>
    ensures { OnOk result (text.new.items ≡ text.old.items ++ encode_lower bytes.now) }
{
    let start = text.len();
    let Some(end) = end_of_digits(start, bytes.len()) else {
        return Err(AllocError);
    };
    text.resize(end, 0)?;
    let _ = hex::encode_to_slice(bytes, &mut text[start..]);
    Ok(())
}

/// Where the digits of so many bytes end that start there, if there is such a place.
fn end_of_digits(start: usize, bytes: usize) -> Option<usize>
    ensures { IfSome result (λ end. end ≡ start + 2 * bytes) }
{
    bytes.checked_mul(2)?.checked_add(start)
}

/// A number in decimal digits.
fn put_number(text: &mut Vec<u8>, number: u64) -> Result<(), AllocError>
    ensures { OnOk result (text.new.items ≡ text.old.items ++ decimal number) }
{
    let mut buffer = Buffer::new();
    text.extend_from_slice(buffer.format(number).as_bytes())
}

/// The start of a command.
fn put_start(text: &mut Vec<u8>, key: u32, command: &Command) -> Result<(), AllocError>
    ensures { OnOk result (text.new.items ≡ text.old.items ++ line_text (start_text key command.now)) }
{
    text.extend_from_slice(b"start ")?;
    put_number(text, u64::from(key))?;
    text.extend_from_slice(b" ")?;
    put_command(text, command)?;
    text.extend_from_slice(b"\n")
}

/// Someone is shut: what begins the line, and a number.
fn put_shut(text: &mut Vec<u8>, front: &[u8], number: u32) -> Result<(), AllocError>
    ensures { OnOk result (text.new.items ≡ text.old.items ++ line_text (front.now ++ decimal number)) }
{
    text.extend_from_slice(front)?;
    put_number(text, u64::from(number))?;
    text.extend_from_slice(b"\n")
}

/// A command: its kind, its path and its words.
fn put_command(text: &mut Vec<u8>, command: &Command) -> Result<(), AllocError>
    ensures { OnOk result (text.new.items ≡ text.old.items ++ command_text command.now) }
{
    let kind = if command.piped { "piped" } else { "plain" };
    text.extend_from_slice(kind.as_bytes())?;
    put_word(text, &command.path)?;
    for word in command.words.as_slice() {
        put_word(text, word)?;
    }
    Ok(())
}

/// A word after a space and `=`.
fn put_word(text: &mut Vec<u8>, word: &Word) -> Result<(), AllocError>
    ensures { OnOk result (text.new.items ≡ text.old.items ++ word_text word.now) }
{
    text.extend_from_slice(b" =")?;
    for byte in word.as_bytes() {
        put_byte(text, *byte)?;
    }
    Ok(())
}

/// A byte of a word.
fn put_byte(text: &mut Vec<u8>, byte: u8) -> Result<(), AllocError>
    ensures { OnOk result (text.new.items ≡ text.old.items ++ byte_text byte) }
{
    if is_plain(byte) {
        return text.extend_from_slice(&[byte]);
    }
    text.extend_from_slice(&[b'%', upper_digit(byte / 16), upper_digit(byte % 16)])
}

/// Whether the byte is seen, and is not `%`.
fn is_plain(byte: u8) -> bool
    ensures { result ≡ is_plain byte }
{
    byte.is_ascii_graphic() && byte != b'%'
}

/// A hexadecimal digit.
fn upper_digit(digit: u8) -> u8
    requires { digit < 16 }
    ensures { result ≡ slice_index upper_digits digit }
{
    b"0123456789ABCDEF"[digit as usize]
}
