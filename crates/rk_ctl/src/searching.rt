//! Keys that are looked for without an ask of their own: each serial below that of the client's new session ring is described.
ghost use Rattle.std.specs.Prelude.{◌≡◌, ◌≤◌, ◌<◌, ◌++◌, OnOk, IfOk, decimal};
ghost use Rattle.rk_client.specs.Printed.{newline};
ghost use Rattle.rk_ctl.specs.Searching.{HasDescribed, HasEnded, HasSearched, HasSeen, HasSwept, HasTried, count_below, counted, is_dead, key_in, line_in, line_of, said_of, serial_at};

use crate::search::Search;
use itoa::Buffer;
use rk_client::{PeerFault, exchange, is_refusal};
use rk_message::{Ask, Reply};
use rk_names::Errno;
use std::alloc::{AllocError, Global};
use std::io::{Read, Write};

/// What was found.
#[derive(Drop)]
pub enum Found {
    /// HELLO was refused.
    Refused(Errno),
    /// A line for each key, or how many were swept.
    Text(Vec<u8>),
}

/// The keys that were described.
#[derive(Drop)]
struct Listed {
    /// Each of them.
    keys: Vec<i32>,
    /// A line for each.
    text: Vec<u8>,
}

/// The greatest serial that there can be.
const MOST: u32 = 2_147_483_647;

/// How far the serials of a hall are apart.
const STEP: u32 = 4;

/// The user ring, by its number.
const USER_RING: i32 = -4;

/// Says the greeting, a HELLO with a new session ring, whose serial is the newest of its hall. Then each serial of the hall below it is described, the least
/// first: of each key that the client possesses there is a line with its serial and what DESCRIBE answers. Or, to sweep, each of these that is negative, has
/// expired or was revoked is taken out of the user ring, and there is a line with their number. Refusals as of [`exchange`], and `Malformed` if HELLO is
/// answered by something else than rings.
pub fn find_keys<R: Read, W: Write>(
    alloc: Global,
    reader: &mut R,
    writer: &mut W,
    greeting: &Ask,
    search: Search,
) -> Result<Found, PeerFault>
    ensures { IfOk result (λ f. HasSearched (W.contents writer.old) (W.contents writer.new) (R.remaining reader.old) (R.remaining reader.new)
        greeting.now search (said_of f)) }
{
    match exchange(alloc, reader, writer, greeting)? {
        Reply::Refused(errno) => Ok(Found::Refused(errno)),
        Reply::Rings { session, .. } if session <= MOST => {
            let listed = described(alloc, reader, writer, session)?;
            Ok(Found::Text(ended(alloc, reader, writer, search, listed)?))
        }
        _ => Err(PeerFault::Malformed),
    }
}

/// Describes each serial below this one.
fn described<R: Read, W: Write>(
    alloc: Global,
    reader: &mut R,
    writer: &mut W,
    newest: u32,
) -> Result<Listed, PeerFault>
    requires { newest < 2147483648 }
    ensures { IfOk result (λ l. HasDescribed newest (W.contents writer.old) (R.remaining reader.old) (count_below newest)
        (W.contents writer.new) (R.remaining reader.new) l.keys.items l.text.items) }
{
    let mut listed = Listed {
        keys: Vec::new(alloc),
        text: Vec::new(alloc),
    };
    for place in 0..count_below(newest) {
        describe(alloc, reader, writer, serial_at(newest, place), &mut listed)?;
    }
    Ok(listed)
}

/// Describes a serial, and notes the key where it is answered.
fn describe<R: Read, W: Write>(
    alloc: Global,
    reader: &mut R,
    writer: &mut W,
    serial: u32,
    listed: &mut Listed,
) -> Result<(), PeerFault>
    requires { serial < 2147483648 }
    ensures { OnOk result (HasSeen (W.contents writer.old) (W.contents writer.new) (R.remaining reader.old) (R.remaining reader.new) serial
        listed.old.keys.items listed.new.keys.items listed.old.text.items listed.new.text.items) }
{
    let ask = Ask::Describe { key: serial as i32 };
    let answer = exchange(alloc, reader, writer, &ask)?;
    note(alloc, serial, answer, listed)?;
    Ok(())
}

/// Notes a key that is described so; nothing if that is refused.
fn note(alloc: Global, serial: u32, answer: Reply, listed: &mut Listed) -> Result<(), AllocError>
    requires { serial < 2147483648 }
    ensures keys { OnOk result (listed.new.keys.items ≡ listed.old.keys.items ++ key_in serial answer) }
    ensures text { OnOk result (listed.new.text.items ≡ listed.old.text.items ++ line_in serial answer) }
{
    if let Reply::Bytes(bytes) = answer {
        listed.keys.push(serial as i32)?;
        let line = line_of(alloc, serial, bytes.as_bytes())?;
        listed.text.extend_from_slice(&line)?;
    }
    Ok(())
}

/// The line of a key that is described so.
fn line_of(alloc: Global, serial: u32, described: &[u8]) -> Result<Vec<u8>, AllocError>
    ensures { IfOk result (λ v. v.items ≡ line_of serial described.now) }
{
    let mut buffer = Buffer::new();
    let mut line = Vec::from_slice(alloc, buffer.format(serial).as_bytes())?;
    line.extend_from_slice(b" ")?;
    line.extend_from_slice(described)?;
    line.extend_from_slice(b"\n")?;
    Ok(line)
}

/// What is printed of the keys: their lines; or, to sweep, how many of them were taken out of the user ring.
fn ended<R: Read, W: Write>(
    alloc: Global,
    reader: &mut R,
    writer: &mut W,
    search: Search,
    listed: Listed,
) -> Result<Vec<u8>, PeerFault>
    ensures { IfOk result (λ v. HasEnded (W.contents writer.old) (W.contents writer.new) (R.remaining reader.old) (R.remaining reader.new)
        listed.keys.items listed.text.items v.items search) }
{
    match search {
        Search::List => Ok(listed.text),
        Search::Sweep => {
            let count = sweep(alloc, reader, writer, &listed.keys)?;
            Ok(line_of_number(alloc, count)?)
        }
    }
}

/// A number in a line of its own.
fn line_of_number(alloc: Global, number: usize) -> Result<Vec<u8>, AllocError>
    ensures { IfOk result (λ v. v.items ≡ decimal number ++ newline) }
{
    let mut buffer = Buffer::new();
    let mut line = Vec::from_slice(alloc, buffer.format(number).as_bytes())?;
    line.extend_from_slice(b"\n")?;
    Ok(line)
}

/// Takes what is dead of these keys out of the user ring, and counts it.
fn sweep<R: Read, W: Write>(
    alloc: Global,
    reader: &mut R,
    writer: &mut W,
    keys: &[i32],
) -> Result<usize, PeerFault>
    ensures { IfOk result (HasSwept (W.contents writer.old) (R.remaining reader.old) keys.now (W.contents writer.new) (R.remaining reader.new)) }
{
    let mut count = 0;
    for key in keys {
        let swept = try_to_sweep(alloc, reader, writer, *key)?;
        count = counted(count, swept);
    }
    Ok(count)
}

/// One more, where it was.
fn counted(count: usize, swept: bool) -> usize
    requires { count < 18446744073709551615 }
    ensures { result ≡ counted count swept }
{
    if swept { count + 1 } else { count }
}

/// How many serials of its hall are below this one.
fn count_below(newest: u32) -> u32
    ensures { result ≡ count_below newest }
{
    newest.saturating_sub(1) / STEP
}

/// The serial at this place of those below the newest, the least first.
fn serial_at(newest: u32, place: u32) -> u32
    requires { place < count_below newest }
    ensures is { result ≡ serial_at newest place }
    ensures below { result ≤ newest }
{
    newest - STEP * (count_below(newest) - place)
}

/// Takes a key out of the user ring if it is dead, and says whether it was there.
fn try_to_sweep<R: Read, W: Write>(
    alloc: Global,
    reader: &mut R,
    writer: &mut W,
    key: i32,
) -> Result<bool, PeerFault>
    ensures { IfOk result (HasTried (W.contents writer.old) (W.contents writer.new) (R.remaining reader.old) (R.remaining reader.new) key) }
{
    let read = exchange(alloc, reader, writer, &Ask::Read { key })?;
    if !is_dead(&read) {
        return Ok(false);
    }
    let unlink = Ask::Unlink {
        key,
        ring: USER_RING,
    };
    let unlinked = exchange(alloc, reader, writer, &unlink)?;
    Ok(!is_refusal(&unlinked))
}

/// Whether READ is answered so for a key that is negative, has expired or was revoked.
fn is_dead(reply: &Reply) -> bool
    ensures { result ≡ is_dead reply.now }
{
    match reply {
        Reply::Refused(errno) => matches!(
            errno,
            Errno::Enokey | Errno::Ekeyexpired | Errno::Ekeyrevoked | Errno::Ekeyrejected
        ),
        _ => false,
    }
}
