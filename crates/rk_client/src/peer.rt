//! One ask as a frame, and the frame of its reply.
ghost use Rattle.std.specs.Prelude.{◌≡◌, ◌≢◌, ℕ, List, length, OnOk, IfOk, IfErr, IfSome, Err};
ghost use Rattle.std.specs.Io.KnownBytes.{Appends, Consumes};
ghost use Rattle.std.specs.Int.{w32, to_be_bytes};
ghost use Rattle.rk_message.specs.Wire.{spelling};
ghost use Rattle.rk_message.specs.Replies.{IsReply, reply_message};
ghost use Rattle.rk_client.specs.Peer.{ask_frame, reply_frame, HasAsked, HasGreeted, HasNoReply, SpellsNoReply, is_refusal};

use crate::fault::PeerFault;
use rk_frame::MAX_BODY;
use rk_message::{Ask, ReadError, Reply};
use std::alloc::{AllocError, Global};
use std::io::{Read, Write};

/// Writes the ask as one frame, in one write, and reads its reply.
///
/// What is read is the frame of the reply and not a byte more. Refusals: `NoMemory`; `Lost` if a write or a read fails, or the reader is at
/// its end before the reply is; `Malformed` if the reader begins with no reply. After a refusal nothing is said of what was written and read.
pub fn exchange<R: Read, W: Write>(
    alloc: Global,
    reader: &mut R,
    writer: &mut W,
    ask: &Ask,
) -> Result<Reply, PeerFault>
    ensures asked { IfOk result (HasAsked (W.contents writer.old) (W.contents writer.new) (R.remaining reader.old) (R.remaining reader.new) ask.now) }
    ensures malformed { result ≡ Err PeerFault.Malformed → IfSome (R.remaining reader.old) HasNoReply }
{
    send(alloc, writer, ask)?;
    receive(alloc, reader)
}

/// Sends the greeting, a HELLO, and the ask after it, as [`exchange`] does each. If the greeting is refused the ask is not sent, and that
/// refusal is the reply.
pub fn exchange_greeted<R: Read, W: Write>(
    alloc: Global,
    reader: &mut R,
    writer: &mut W,
    greeting: &Ask,
    ask: &Ask,
) -> Result<Reply, PeerFault>
    ensures { IfOk result (HasGreeted (W.contents writer.old) (W.contents writer.new) (R.remaining reader.old) (R.remaining reader.new)
        greeting.now ask.now) }
{
    let welcome = exchange(alloc, reader, writer, greeting)?;
    if is_refusal(&welcome) {
        return Ok(welcome);
    }
    exchange(alloc, reader, writer, ask)
}

/// Whether the reply is a refusal.
pub fn is_refusal(reply: &Reply) -> bool
    ensures { result ≡ is_refusal reply.now }
{
    matches!(reply, Reply::Refused(_))
}

/// Writes the frame of the ask.
fn send<W: Write>(alloc: Global, writer: &mut W, ask: &Ask) -> Result<(), PeerFault>
    ensures wrote { OnOk result (Appends (W.contents writer.old) (W.contents writer.new) (ask_frame ask.now)) }
    ensures fault { IfErr result (λ e. e ≢ PeerFault.Malformed) }
{
    let frame = ask_frame(alloc, ask)?;
    let Ok(()) = writer.write_all(&frame) else {
        return Err(PeerFault::Lost);
    };
    match writer.flush() {
        Ok(()) => Ok(()),
        Err(_) => Err(PeerFault::Lost),
    }
}

/// The ask with its length before it.
fn ask_frame(alloc: Global, ask: &Ask) -> Result<Vec<u8>, AllocError>
    ensures { IfOk result (λ v. v.items ≡ ask_frame ask.now) }
{
    let body = ask.write(alloc)?;
    let mut frame = Vec::with_capacity(alloc, 4 + body.len())?;
    frame.extend_from_slice(&(body.len() as u32).to_be_bytes())?;
    frame.extend_from_slice(&body)?;
    Ok(frame)
}

/// Reads the frame of a reply.
fn receive<R: Read>(alloc: Global, reader: &mut R) -> Result<Reply, PeerFault>
    ensures read { IfOk result (λ r. IsReply r × Consumes (R.remaining reader.old) (R.remaining reader.new) (reply_frame r)) }
    ensures malformed { result ≡ Err PeerFault.Malformed → IfSome (R.remaining reader.old) HasNoReply }
{
    let length = read_length(reader)? as usize;
    if length == 0 || length > MAX_BODY {
        return Err(PeerFault::Malformed);
    }
    let mut body = vec![in alloc; 0u8; length]?;
    read_body(alloc, reader, &mut body)
}

/// Reads the length of a body.
fn read_length<R: Read>(reader: &mut R) -> Result<u32, PeerFault>
    ensures read { IfOk result (λ n. Consumes (R.remaining reader.old) (R.remaining reader.new) (to_be_bytes w32 n)) }
    ensures lost { IfErr result (λ e. e ≡ PeerFault.Lost) }
{
    let mut head = [0u8; 4];
    fill(reader, &mut head)?;
    Ok(length_told(&head))
}

/// The length that four bytes tell.
fn length_told(head: &[u8; 4]) -> u32
    ensures { to_be_bytes w32 result ≡ head.now }
{
    u32::from_be_bytes(*head)
}

/// Reads a body that fills the room, and the reply that it spells.
fn read_body<R: Read>(alloc: Global, reader: &mut R, room: &mut [u8]) -> Result<Reply, PeerFault>
    ensures read { IfOk result (λ r. IsReply r × (length (spelling (reply_message r)) ≡ length room.old)
        × Consumes (R.remaining reader.old) (R.remaining reader.new) (spelling (reply_message r))) }
    ensures malformed { result ≡ Err PeerFault.Malformed → (body : List ℕ) × (length body ≡ length room.old)
        × Consumes (R.remaining reader.old) (R.remaining reader.new) body × SpellsNoReply body }
{
    fill(reader, room)?;
    reply_of(alloc, room)
}

/// The reply that a whole body spells; `Malformed` if it spells none. It is never `Lost`, since all of it has come.
fn reply_of(alloc: Global, body: &[u8]) -> Result<Reply, PeerFault>
    ensures reply { IfOk result (λ r. IsReply r × (body.now ≡ spelling (reply_message r))) }
    ensures malformed { result ≡ Err PeerFault.Malformed → SpellsNoReply body.now }
    ensures came { result ≢ Err PeerFault.Lost }
{
    match Reply::read(alloc, body) {
        Ok(reply) => Ok(reply),
        Err(ReadError::Fault(_)) => Err(PeerFault::Malformed),
        Err(ReadError::NoMemory) => Err(PeerFault::NoMemory),
    }
}

/// Reads as many bytes as there is room for.
fn fill<R: Read>(reader: &mut R, room: &mut [u8]) -> Result<(), PeerFault>
    ensures read { OnOk result (Consumes (R.remaining reader.old) (R.remaining reader.new) room.new) }
    ensures lost { IfErr result (λ e. e ≡ PeerFault.Lost) }
{
    match reader.read_exact(room) {
        Ok(()) => Ok(()),
        Err(_) => Err(PeerFault::Lost),
    }
}
