//! What is printed, on which stream, and the status that goes with it.
ghost use Rattle.std.specs.Prelude.{◌≡◌, ◌≤◌, IfOk, false};
ghost use Rattle.std.specs.Io.KnownBytes.{Appends};
ghost use Rattle.rk_client.specs.Peer.{is_refusal};
ghost use Rattle.rk_ctl.specs.Outcome.{told_reply};
ghost use Rattle.rk_ctl.specs.Said.{options_by};

use crate::call::Options;
use rk_client::{PeerFault, is_refusal, printed};
use rk_message::Reply;
use std::alloc::{AllocError, Global};
use std::io::Write;

/// The status of a run that failed.
const FAILED: u8 = 1;

/// The status of a usage error.
const USAGE: u8 = 2;

/// Tells on `errors` that memory ran out, as far as that takes it, and gives the status of a run that failed, 1.
pub fn no_memory<E: Write>(errors: &mut E) -> u8
    ensures { result ≡ 1 }
{
    let _ = errors.write_all(b"reqkeyctl: memory\n");
    FAILED
}

/// A peer that can't be reached or is gone, or what it sent is no reply; and what stood in the way.
pub fn no_peer<E: Write>(trouble: Option<&str>, errors: &mut E) -> u8
    ensures { result ≡ 1 }
{
    let _ = errors.write_all(b"reqkeyctl: socket\n");
    detail(trouble, errors);
    FAILED
}

/// What stood in the way, in a line of its own, if that is known.
fn detail<E: Write>(trouble: Option<&str>, errors: &mut E) {
    if let Some(text) = trouble {
        let _ = errors.write_all(b"  ");
        let _ = errors.write_all(text.as_bytes());
        let _ = errors.write_all(b"\n");
    }
}

/// A stream that does not take what is printed.
pub fn no_output<E: Write>(errors: &mut E) -> u8
    ensures { result ≡ 1 }
{
    let _ = errors.write_all(b"reqkeyctl: output\n");
    FAILED
}

/// A file that can't be read, or whose bytes the field does not allow; and what stood in the way.
pub fn no_file<E: Write>(trouble: Option<&str>, errors: &mut E) -> u8
    ensures { result ≡ 1 }
{
    let _ = errors.write_all(b"reqkeyctl: file\n");
    detail(trouble, errors);
    FAILED
}

/// A program that is not there, can't be started, or whose end is not known; and what stood in the way.
pub fn no_program<E: Write>(trouble: Option<&str>, errors: &mut E) {
    let _ = errors.write_all(b"reqkeyctl: program\n");
    detail(trouble, errors);
}

/// Tells on `errors` that a word is not text, as far as that takes it, and gives the status of a usage error, 2.
pub fn not_text<E: Write>(errors: &mut E) -> u8
    ensures { result ≡ 2 }
{
    misused(
        "error: an argument is not UTF-8; '--payload-from <FILE>' takes a payload of any bytes\n",
        errors,
    )
}

/// What is wrong with the words.
pub fn misused<E: Write>(text: &str, errors: &mut E) -> u8
    ensures { result ≡ 2 }
{
    let _ = errors.write_all(text.as_bytes());
    USAGE
}

/// Tells what was asked for.
pub fn tell<W: Write>(text: &[u8], writer: &mut W) -> u8
    ensures told { result ≡ 0 → Appends (W.contents writer.old) (W.contents writer.new) text.now }
    ensures status { result ≤ 1 }
{
    let Ok(()) = writer.write_all(text) else {
        return FAILED;
    };
    match writer.flush() {
        Ok(()) => 0,
        Err(_) => FAILED,
    }
}

/// Why there is no reply, and what stood in the way.
pub fn refused<E: Write>(fault: PeerFault, trouble: Option<&str>, errors: &mut E) -> u8
    ensures { result ≡ 1 }
{
    match fault {
        PeerFault::NoMemory => no_memory(errors),
        PeerFault::Lost | PeerFault::Malformed => no_peer(trouble, errors),
    }
}

/// Tells a refusal.
pub fn refusal<E: Write>(alloc: Global, reply: Reply, errors: &mut E) -> u8
    ensures { result ≡ 1 }
{
    let Ok(text) = printed(alloc, reply, false) else {
        return no_memory(errors);
    };
    let _ = tell(&text, errors);
    FAILED
}

/// What is printed of a reply, unless it is a refusal.
fn text_of(alloc: Global, reply: Reply, options: &Options<'_>) -> Result<Vec<u8>, AllocError>
    ensures { IfOk result (λ v. v.items ≡ told_reply (options_by options.now) reply) }
{
    if options.quiet {
        return Ok(Vec::new(alloc));
    }
    printed(alloc, reply, options.raw)
}

/// Tells a reply on one stream, whatever it says: a handler's other stream is the daemon's.
pub fn answer_alone<E: Write>(
    alloc: Global,
    reply: Reply,
    options: &Options<'_>,
    errors: &mut E,
) -> u8
    ensures told { result ≡ 0 → (is_refusal reply ≡ false)
        × Appends (E.contents errors.old) (E.contents errors.new) (told_reply (options_by options.now) reply) }
    ensures status { result ≤ 1 }
{
    if is_refusal(&reply) {
        return refusal(alloc, reply, errors);
    }
    let Ok(text) = text_of(alloc, reply, options) else {
        return no_memory(errors);
    };
    tell(&text, errors)
}

/// Tells a reply on `writer`, and a refusal on `errors`.
pub fn answer<W: Write, E: Write>(
    alloc: Global,
    reply: Reply,
    options: &Options<'_>,
    writer: &mut W,
    errors: &mut E,
) -> u8
    ensures told { result ≡ 0 → (is_refusal reply ≡ false)
        × Appends (W.contents writer.old) (W.contents writer.new) (told_reply (options_by options.now) reply) × (errors.new ≡ errors.old) }
    ensures status { result ≤ 1 }
{
    if is_refusal(&reply) {
        return refusal(alloc, reply, errors);
    }
    let Ok(text) = text_of(alloc, reply, options) else {
        return no_memory(errors);
    };
    if tell(&text, writer) == 0 {
        return 0;
    }
    no_output(errors)
}
