//! The ask of a call.
ghost use Rattle.std.specs.Prelude.{◌≡◌, Some, None, IfOk, Err, map, option_map, string_bytes, MatchResult};
ghost use Rattle.std.specs.List.{list_any, position};
ghost use Rattle.rk_message.specs.Table.{ask_fields};
ghost use Rattle.rk_client.specs.declared.fault.ArgumentFault.{ArgumentFault as Faults};
ghost use Rattle.rk_ctl.specs.declared.misuse.Misplaced.{Misplaced as Misplacements};
ghost use Rattle.rk_ctl.specs.Calls.{Asks, AsksWith, greeting_before, greeting_said, is_callout, is_payload, place_said, with_bytes};
ghost use Rattle.rk_ctl.specs.Misplacing.{misplaced};
ghost use Rattle.rk_ctl.specs.Said.{call_by, options_by};

use crate::call::{Call, Options};
use crate::misuse::Misplaced;
use crate::source::{SourceFault, read_source};
use rk_client::{ArgumentFault, ask_of};
use rk_message::{Ask, FieldKind, Greeting, Op};
use rk_names::Serial;
use std::alloc::{AllocError, Global};
use std::fs::Files;
use std::io;
use std::io::Read;
use thiserror::Error;

/// Why a call is no ask.
#[derive(Clone, Copy, Debug, Error)]
pub enum AskFault {
    /// Its arguments are not those of its op.
    #[error("{0}")]
    Words(ArgumentFault),
    /// A file stands for an argument that it can't be.
    #[error("{0}")]
    Place(Misplaced),
    /// The file can't be read, as the system says.
    #[error("the file can't be read: {0}")]
    File(io::Error),
    /// The bytes of the file are not allowed.
    #[error("the bytes of the file: {0}")]
    Bytes(ArgumentFault),
    /// There was no memory.
    #[error("out of memory")]
    NoMemory,
}

/// A file whose bytes stand for an argument.
#[derive(Clone, Copy)]
struct Place<'a> {
    /// Its path, `-` for standard input.
    path: &'a str,
    /// The place among the arguments for which its bytes stand, the first one 0.
    at: usize,
}

/// What the words of the call ask. A fault of the words is found before a file is opened or `reader` is read.
pub fn ask_for<R: Files, I: Read>(
    rt: &R,
    alloc: Global,
    call: &Call<'_>,
    reader: &mut I,
) -> Result<Ask, AskFault>
    ensures asks { IfOk result (Asks (call_by call.now)) }
    ensures words { (fault : Faults) → result ≡ Err (AskFault.Words fault) → reader.new ≡ reader.old }
    ensures place { (fault : Misplacements) → result ≡ Err (AskFault.Place fault) → reader.new ≡ reader.old }
    ensures handler { call.now.options.socket ≡ None → reader.new ≡ reader.old }
{
    let Some(place) = place_of(call)? else {
        return ask_with(alloc, call, None);
    };
    if place.path == "-" && call.options.socket.is_none() {
        return Err(AskFault::Place(Misplaced::Input));
    }
    ask_with(alloc, call, Some((place.at, b"-")))?;
    let bytes = match read_source(rt, alloc, place.path, reader) {
        Ok(bytes) => bytes,
        Err(SourceFault::Lost(error)) => return Err(AskFault::File(error)),
        Err(SourceFault::NoMemory) => return Err(AskFault::NoMemory),
    };
    match ask_with(alloc, call, Some((place.at, bytes.as_slice()))) {
        Ok(ask) => Ok(ask),
        Err(AskFault::Words(fault)) => Err(AskFault::Bytes(fault)),
        Err(_) => Err(AskFault::NoMemory),
    }
}

/// The file that is named, if one is. A callout comes last.
fn place_of<'a>(call: &Call<'a>) -> Result<Option<Place<'a>>, AskFault>
    ensures { MatchResult result (λ p. place_said (call_by call.now) ≡ Some (option_map (λ place. record { path = place.path.now; at = place.at }) p))
        (λ e. (place_said (call_by call.now) ≡ None) × (e ≡ AskFault.Place (misplaced call.now.options.payload_from call.now.options.callout_from))) }
{
    match (call.options.payload_from, call.options.callout_from) {
        (None, None) => Ok(None),
        (Some(path), None) => match payload_place(call.op) {
            Some(at) => Ok(Some(Place { path, at })),
            None => Err(AskFault::Place(Misplaced::Payload)),
        },
        (None, Some(path)) if has_callout(call.op) => Ok(Some(Place {
            path,
            at: call.arguments.len(),
        })),
        (None, Some(_)) => Err(AskFault::Place(Misplaced::Callout)),
        (Some(_), Some(_)) => Err(AskFault::Place(Misplaced::Both)),
    }
}

/// Where the payload stands among the fields of the op.
fn payload_place(op: Op) -> Option<usize>
    ensures { result ≡ position is_payload (ask_fields op) }
{
    op.shape()
        .fields
        .iter()
        .position(|field| matches!(field, FieldKind::Payload))
}

/// Whether a callout is among the fields of the op.
fn has_callout(op: Op) -> bool
    ensures { result ≡ list_any is_callout (ask_fields op) }
{
    op.shape()
        .fields
        .iter()
        .any(|field| matches!(field, FieldKind::Callout))
}

/// The ask of the call, with these bytes as one more argument.
fn ask_with(alloc: Global, call: &Call<'_>, more: Option<(usize, &[u8])>) -> Result<Ask, AskFault>
    ensures { IfOk result (AsksWith (call_by call.now) (option_map (λ x. (x.0, x.1.now)) more.entry)) }
{
    if call.op == Op::Hello {
        if call.arguments.is_empty() {
            return Ok(greeting(&call.options));
        }
        return Err(AskFault::Words(ArgumentFault::Count));
    }
    let arguments = with_more(alloc, call.arguments, more)?;
    match ask_of(alloc, call.op, &arguments) {
        Ok(ask) => Ok(ask),
        Err(ArgumentFault::NoMemory) => Err(AskFault::NoMemory),
        Err(fault) => Err(AskFault::Words(fault)),
    }
}

/// The bytes of each argument, and these among them.
fn with_more<'a>(
    alloc: Global,
    arguments: &'a [String],
    more: Option<(usize, &'a [u8])>,
) -> Result<Vec<&'a [u8]>, AskFault>
    ensures { IfOk result (λ v. map (λ s. s.now) v.items ≡ with_bytes (map string_bytes arguments.now) (option_map (λ x. (x.0, x.1.now)) more.entry)) }
{
    let Ok(mut all) = bytes_of(alloc, arguments) else {
        return Err(AskFault::NoMemory);
    };
    let Some((at, bytes)) = more else {
        return Ok(all);
    };
    if at > all.len() {
        return Err(AskFault::Words(ArgumentFault::Count));
    }
    match all.insert(at, bytes) {
        Ok(()) => Ok(all),
        Err(_) => Err(AskFault::NoMemory),
    }
}

/// The bytes of each argument.
fn bytes_of<'a>(alloc: Global, arguments: &'a [String]) -> Result<Vec<&'a [u8]>, AllocError>
    ensures { IfOk result (λ v. map (λ s. s.now) v.items ≡ map string_bytes arguments.now) }
{
    let mut bytes = Vec::new(alloc);
    for argument in arguments {
        bytes.push(argument.as_bytes())?;
    }
    Ok(bytes)
}

/// The HELLO that a client says before the ask of the call. A HELLO that is asked for is the only message.
pub fn greeting_before(call: &Call<'_>) -> Option<Ask>
    ensures { result ≡ greeting_before (call_by call.now) }
{
    match call.op {
        Op::Hello => None,
        _ => Some(greeting(&call.options)),
    }
}

/// The HELLO of these options: no ring of its own.
fn greeting(options: &Options<'_>) -> Ask
    ensures { result ≡ greeting_said (options_by options.now) }
{
    Ask::Hello(Greeting {
        uid: options.uid,
        gid: options.gid,
        thread: false,
        process: false,
        join: Serial::new(options.join),
    })
}
