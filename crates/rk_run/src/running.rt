//! A run from its start to its end.
ghost use Rattle.std.specs.Prelude.{◌≡◌, IfOk, option_map, string_bytes};
ghost use Rattle.rk_run.specs.Runs.{HasRun, HasRunIn, HasTrapped, HasTried, IsStartIn, hello_of, library_of, ring_in, socket_of, tool_of, unheard, unstarted_by};
ghost use Rattle.rk_run.specs.Seen.{seen_in};
ghost use Rattle.rk_run.specs.Words.{said_by};
ghost use Rattle.rk_variables.specs.Starts.{start_of};

use crate::fault::RunFault;
use crate::host::{Here, Host, StartFault};
use crate::paths::from_anywhere;
use crate::starting::{made, trapped};
use crate::status::status_of;
use crate::wanted::Wanted;
use rk_client::PeerFault;
use rk_message::{Ask, Greeting, Reply};
use std::alloc::{AllocError, Global};
use std::process::Command;

/// Runs the program that is wanted in a session ring of its own, and gives its status as a shell tells it.
///
/// The socket, the user, the group and the library are those that are named, or else those of the host. Refusals, in this order: `NoMemory`; `Socket`
/// if none is named; `File` if the library is not there; `Socket` if nobody answers or the answer is none to HELLO; `Refused` if HELLO is;
/// `NotFound` and `Unstartable` if the program is not started, and `Unknown` if its end is not told. The connection is closed after each.
///
/// If `reqkey-trap` is wanted, it is there in place of the library, and is started with the program; it makes a connection and a session ring itself.
pub fn run<H: Host>(alloc: Global, host: &mut H, wanted: &Wanted<'_>) -> Result<u8, RunFault>
    ensures { HasRun (said_by wanted.now) (H.story host.old) (H.story host.new) result }
{
    let Ok(here) = host.look() else {
        return Err(RunFault::NoMemory);
    };
    let Some(socket) = socket_of(wanted, &here) else {
        return Err(RunFault::Socket);
    };
    if !host.has(tool_of(wanted, &here)) {
        return Err(RunFault::File);
    }
    if wanted.trap {
        return by_trap(alloc, host, wanted, &here, socket);
    }
    match host.greet(socket, &hello_of(wanted, &here)) {
        Ok(reply) => {
            let ended = in_session(alloc, host, wanted, &here, socket, &reply);
            host.close();
            ended
        }
        Err(fault) => Err(unheard(fault)),
    }
}

/// Runs the program while the connection is open, on which HELLO was answered so.
fn in_session<H: Host>(
    alloc: Global,
    host: &mut H,
    wanted: &Wanted<'_>,
    here: &Here,
    socket: &str,
    reply: &Reply,
) -> Result<u8, RunFault>
    ensures { HasRunIn (said_by wanted.now) (seen_in here.now) socket.now reply.now (H.story host.old) (H.story host.new) result }
{
    let ring = match ring_in(reply) {
        Ok(ring) => ring,
        Err(fault) => return Err(fault),
    };
    let Ok(command) = made_in(alloc, wanted, here, socket, ring) else {
        return Err(RunFault::NoMemory);
    };
    started(host, command)
}

/// Has `reqkey-trap` run the program, with the daemon at this path.
fn by_trap<H: Host>(
    alloc: Global,
    host: &mut H,
    wanted: &Wanted<'_>,
    here: &Here,
    socket: &str,
) -> Result<u8, RunFault>
    ensures { HasTrapped (said_by wanted.now) (seen_in here.now) socket.now (H.story host.old) (H.story host.new) result }
{
    let Ok(command) = trapped(alloc, wanted, here.trap.as_str(), socket) else {
        return Err(RunFault::NoMemory);
    };
    started(host, command)
}

/// Starts a program, waits for its end, and gives its status.
fn started<H: Host>(host: &mut H, command: Command) -> Result<u8, RunFault>
    ensures { HasTried (start_of command) (H.story host.old) (H.story host.new) result }
{
    if let Err(fault) = host.start(command) {
        return Err(unstarted_by(fault));
    }
    match host.wait() {
        Some(status) => Ok(status_of(status)),
        None => Err(RunFault::Unknown),
    }
}

/// The command of the program that is wanted, in this ring of the daemon at this path. The only refusal is out of memory.
fn made_in(
    alloc: Global,
    wanted: &Wanted<'_>,
    here: &Here,
    socket: &str,
    ring: u32,
) -> Result<Command, AllocError>
    ensures { IfOk result (λ c. IsStartIn (said_by wanted.now) (seen_in here.now) socket.now ring (start_of c)) }
{
    let (library, before) = (library_of(wanted, here), text_of(&here.preloaded));
    let socket = from_anywhere(alloc, text_of(&here.folder), socket)?;
    made(alloc, wanted, library, before, socket.as_str(), ring)
}

/// HELLO with a new session ring and no other.
fn hello_of(wanted: &Wanted<'_>, here: &Here) -> Ask
    ensures { result ≡ hello_of (said_by wanted.now) (seen_in here.now) }
{
    Ask::Hello(Greeting {
        uid: wanted.uid.unwrap_or(here.uid),
        gid: wanted.gid.unwrap_or(here.gid),
        thread: false,
        process: false,
        join: None,
    })
}

/// The socket that is named, or else that of the environment.
fn socket_of<'a, 'w: 'a>(wanted: &Wanted<'w>, here: &'a Here) -> Option<&'a str>
    ensures { option_map (λ s. s.now) result ≡ socket_of (said_by wanted.now) (seen_in here.now) }
{
    match (wanted.socket, &here.socket) {
        (Some(path), _) => Some(path),
        (None, Some(path)) => Some(path.as_str()),
        (None, None) => None,
    }
}

/// The library that is named, or else the one that is installed.
fn library_of<'a, 'w: 'a>(wanted: &Wanted<'w>, here: &'a Here) -> &'a str
    ensures { result.now ≡ library_of (said_by wanted.now) (seen_in here.now) }
{
    match wanted.library {
        Some(path) => path,
        None => here.installed.as_str(),
    }
}

/// The file that has to be there: `reqkey-trap`, or the library.
fn tool_of<'a, 'w: 'a>(wanted: &Wanted<'w>, here: &'a Here) -> &'a str
    ensures { result.now ≡ tool_of (said_by wanted.now) (seen_in here.now) }
{
    if wanted.trap {
        here.trap.as_str()
    } else {
        library_of(wanted, here)
    }
}

/// A text, if there is one.
fn text_of(owned: &Option<String>) -> Option<&str>
    ensures { option_map (λ s. s.now) result ≡ option_map string_bytes owned.now }
{
    match owned {
        Some(text) => Some(text.as_str()),
        None => None,
    }
}

/// The session ring in a reply to HELLO.
fn ring_in(reply: &Reply) -> Result<u32, RunFault>
    ensures { result ≡ ring_in reply.now }
{
    match reply {
        Reply::Rings { session, .. } => Ok(*session),
        Reply::Refused(errno) => Err(RunFault::Refused(*errno)),
        Reply::Number(_) | Reply::Bytes(_) => Err(RunFault::Socket),
    }
}

/// Why there is no reply.
fn unheard(fault: PeerFault) -> RunFault
    ensures { result ≡ unheard fault }
{
    match fault {
        PeerFault::Lost | PeerFault::Malformed => RunFault::Socket,
        PeerFault::NoMemory => RunFault::NoMemory,
    }
}

/// Why nothing was started.
fn unstarted_by(fault: StartFault) -> RunFault
    ensures { result ≡ unstarted_by fault }
{
    match fault {
        StartFault::NotFound => RunFault::NotFound,
        StartFault::Unstartable => RunFault::Unstartable,
        StartFault::NoMemory => RunFault::NoMemory,
    }
}
