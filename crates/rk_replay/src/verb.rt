//! What happens, by the word of a line.
ghost use Rattle.std.specs.Prelude.{◌≡◌, ◌≤◌};
ghost use Rattle.rk_replay.specs.Text.{fields_of};
ghost use Rattle.rk_replay.specs.Fields.{Gives, sole, both};
ghost use Rattle.rk_replay.specs.Values.{client_of, key_of, bytes_of};
ghost use Rattle.rk_replay.specs.Reading.{how_of, ending_of, happening_of};
ghost use Rattle.rk_served.specs.declared.happening.Happening.TheVariants as happening;
ghost use Rattle.rk_served.specs.declared.happening.StartResult.TheVariants.{Started, Failed};

use crate::field::{self, Misread};
use rk_core::How;
use rk_names::Serial;
use rk_served::{Bytes, Happening, StartResult};
use std::alloc::Global;

/// What happens, by the word after the moment and the fields after that word.
pub fn happening(alloc: Global, word: &[u8], fields: &[u8]) -> Result<Happening, Misread>
    ensures { Gives (λ h. h) result (happening_of word.now (fields_of fields.now)) }
{
    match Verb::named(word).ok_or(Misread::NotALine)? {
        Verb::Accept => Ok(Happening::Accept(client(fields)?)),
        Verb::Bytes => client_bytes(alloc, fields),
        Verb::Gone => Ok(Happening::Gone(client(fields)?)),
        Verb::Started => Ok(Happening::StartResult(key(fields)?, StartResult::Started)),
        Verb::Unstarted => Ok(Happening::StartResult(key(fields)?, StartResult::Failed)),
        Verb::Out => handler_bytes(alloc, fields),
        Verb::OutFault => Ok(Happening::HandlerReadFault(key(fields)?)),
        Verb::Ended => ending(fields),
        Verb::WaitFault => Ok(Happening::WaitFault(key(fields)?)),
    }
}

/// The word of a line that says what happens.
#[derive(Clone, Copy)]
pub enum Verb {
    /// A client connects.
    Accept,
    /// Bytes come from a client.
    Bytes,
    /// A client disconnects.
    Gone,
    /// A handler's start succeeded.
    Started,
    /// A handler's start failed.
    Unstarted,
    /// Bytes come from a handler.
    Out,
    /// A handler's output can't be read.
    OutFault,
    /// A handler has ended.
    Ended,
    /// How it ended can't be learned.
    WaitFault,
}

impl Verb {
    ghost use Rattle.rk_replay.specs.Verbs.{verb_of};

    /// The verb that a script writes so.
    pub fn named(word: &[u8]) -> Option<Verb>
        ensures { result ≡ verb_of word.now }
    {
        if word == b"accept".as_slice() {
            Some(Verb::Accept)
        } else if word == b"bytes".as_slice() {
            Some(Verb::Bytes)
        } else if word == b"gone".as_slice() {
            Some(Verb::Gone)
        } else if word == b"started".as_slice() {
            Some(Verb::Started)
        } else if word == b"unstarted".as_slice() {
            Some(Verb::Unstarted)
        } else if word == b"out".as_slice() {
            Some(Verb::Out)
        } else if word == b"outfault".as_slice() {
            Some(Verb::OutFault)
        } else if word == b"ended".as_slice() {
            Some(Verb::Ended)
        } else if word == b"waitfault".as_slice() {
            Some(Verb::WaitFault)
        } else {
            None
        }
    }
}

/// The number of a client, and nothing else.
fn client(fields: &[u8]) -> Result<u32, Misread>
    ensures { Gives (λ n. n) result (sole client_of (fields_of fields.now)) }
{
    let (client, rest) = field::client(fields)?;
    field::end(rest)?;
    Ok(client)
}

/// The serial of a key, and nothing else.
fn key(fields: &[u8]) -> Result<Serial, Misread>
    ensures { Gives (λ k. k) result (sole key_of (fields_of fields.now)) }
{
    let (key, rest) = field::key(fields)?;
    field::end(rest)?;
    Ok(serial(key))
}

/// A client and the next bytes of its stream.
fn client_bytes(alloc: Global, fields: &[u8]) -> Result<Happening, Misread>
    ensures { Gives (λ h. h) result (both client_of bytes_of happening.Bytes (fields_of fields.now)) }
{
    let (client, rest) = field::client(fields)?;
    let (bytes, rest) = field::bytes(alloc, rest)?;
    field::end(rest)?;
    Ok(Happening::Bytes(client, bytes))
}

/// A key and the next bytes of its handler.
fn handler_bytes(alloc: Global, fields: &[u8]) -> Result<Happening, Misread>
    ensures { Gives (λ h. h) result (both key_of bytes_of happening.HandlerBytes (fields_of fields.now)) }
{
    let (key, rest) = field::key(fields)?;
    let (bytes, rest) = field::bytes(alloc, rest)?;
    field::end(rest)?;
    Ok(Happening::HandlerBytes(serial(key), bytes))
}

/// A key and how its handler ended.
fn ending(fields: &[u8]) -> Result<Happening, Misread>
    ensures { Gives (λ h. h) result (ending_of (fields_of fields.now)) }
{
    let (key, rest) = field::key(fields)?;
    let how = how(rest)?;
    Ok(Happening::HandlerEnded(serial(key), how))
}

/// `exit` and a status, or `signal`.
fn how(fields: &[u8]) -> Result<How, Misread>
    ensures { Gives (λ h. h) result (how_of (fields_of fields.now)) }
{
    let (word, rest) = field::word(fields)?;
    match word {
        b"signal" => {
            field::end(rest)?;
            Ok(How::Signal)
        }
        b"exit" => {
            let (status, rest) = field::status(rest)?;
            field::end(rest)?;
            Ok(How::Exit(status))
        }
        _ => Err(Misread::NotALine),
    }
}

/// The serial of this number.
fn serial(number: u32) -> Serial
    requires low { 1 ≤ number }
    requires high { number ≤ 2147483647 }
    ensures { result ≡ number }
{
    Serial::new(number).unwrap()
}
