//! What is printed, as text.
ghost use Rattle.std.specs.Prelude.{◌≡◌, ◌++◌, IfOk, OnOk};
ghost use Rattle.std.specs.List.{flat_map};
ghost use Rattle.rk_preview.specs.Text.{byte_text, command_text, count_text, head_text, is_shown, octal, word_line};

use itoa::Buffer;
use rk_conf::Word;
use rk_macro::Command;
use std::alloc::{AllocError, Global};

/// How many lines name a program.
pub fn count(alloc: Global, lines: usize) -> Result<Vec<u8>, AllocError>
    ensures { IfOk result (λ v. v.items ≡ count_text lines) }
{
    let mut buffer = Buffer::new();
    let mut text = Vec::from_slice(alloc, b"ok, ")?;
    text.extend_from_slice(buffer.format(lines).as_bytes())?;
    text.extend_from_slice(if lines == 1 { b" line\n" } else { b" lines\n" })?;
    Ok(text)
}

/// A command of the line of this number.
pub fn told(alloc: Global, number: usize, command: &Command) -> Result<Vec<u8>, AllocError>
    ensures { IfOk result (λ v. v.items ≡ command_text number command.now.piped command.now.path command.now.words) }
{
    let mut text = head(alloc, number, command.piped)?;
    put_word(&mut text, &command.path)?;
    put_words(&mut text, command.words.as_slice())?;
    Ok(text)
}

/// The line of the number and the kind.
fn head(alloc: Global, number: usize, piped: bool) -> Result<Vec<u8>, AllocError>
    ensures { IfOk result (λ v. v.items ≡ head_text number piped) }
{
    let mut buffer = Buffer::new();
    let kind: &[u8] = if piped { b"piped\n" } else { b"plain\n" };
    let mut text = Vec::from_slice(alloc, b"line ")?;
    text.extend_from_slice(buffer.format(number).as_bytes())?;
    text.extend_from_slice(b" ")?;
    text.extend_from_slice(kind)?;
    Ok(text)
}

/// Words, each in a line of its own.
fn put_words(text: &mut Vec<u8>, words: &[Word]) -> Result<(), AllocError>
    ensures { OnOk result (text.new.items ≡ text.old.items ++ flat_map word_line words.now) }
{
    for word in words {
        put_word(text, word)?;
    }
    Ok(())
}

/// A word in a line of its own.
fn put_word(text: &mut Vec<u8>, word: &Word) -> Result<(), AllocError>
    ensures { OnOk result (text.new.items ≡ text.old.items ++ word_line word.now) }
{
    for byte in word.as_bytes() {
        put_byte(text, *byte)?;
    }
    text.extend_from_slice(b"\n")
}

/// A byte of a word.
fn put_byte(text: &mut Vec<u8>, byte: u8) -> Result<(), AllocError>
    ensures { OnOk result (text.new.items ≡ text.old.items ++ byte_text byte) }
{
    if is_shown(byte) {
        return text.extend_from_slice(&[byte]);
    }
    text.extend_from_slice(&[b'\\', b'0', octal(byte / 64), octal(byte / 8), octal(byte)])
}

/// Whether the byte is no control and no backslash.
fn is_shown(byte: u8) -> bool
    ensures { result ≡ is_shown byte }
{
    byte >= 32 && byte != b'\\' && byte != 127
}

/// The last octal digit.
fn octal(number: u8) -> u8
    ensures { result ≡ octal number }
{
    b'0' + number % 8
}
