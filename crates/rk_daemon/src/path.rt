//! How the path of the socket is taken, and given free.
ghost use Rattle.std.specs.Prelude.{is_ok};
ghost use Rattle.rk_daemon.specs.Story.{Does};
ghost use Rattle.rk_daemon.specs.Taking.{Binds, GivesFree, Opens, Readies, Replaces, Takes, file_taken};

use crate::place::{FileId, Place};
use std::io;
use std::io::ErrorKind;

/// Takes the path: a socket listens there, with these permissions from its first moment on. A socket on which nobody listens any more is replaced, and any
/// other file is left. Also tells which file it is.
pub fn take<P: Place>(place: &mut P, path: &str, mode: u32) -> io::Result<(P::Listener, FileId)>
    ensures { Does (Takes path.now mode (file_taken result)) (P.story place.old) (P.story place.new) }
{
    let socket = bound(place, path)?;
    let listener = opened(place, socket, path, mode)?;
    let file = place.identify(path)?;
    Ok((listener, file))
}

/// A socket that is bound to the path.
fn bound<P: Place>(place: &mut P, path: &str) -> io::Result<P::Socket>
    ensures { Does (Binds path.now (is_ok result)) (P.story place.old) (P.story place.new) }
{
    match place.bind(path) {
        Ok(socket) => Ok(socket),
        Err(error) => match error.kind() {
            ErrorKind::AddrInUse => bound_instead(place, path, error),
            _ => Err(error),
        },
    }
}

/// A socket that is bound in the place of one on which nobody listens any more. If there is none such, the error is this one.
fn bound_instead<P: Place>(place: &mut P, path: &str, error: io::Error) -> io::Result<P::Socket>
    ensures { Does (Replaces path.now (is_ok result)) (P.story place.old) (P.story place.new) }
{
    let is_left_over = place.is_left_over(path)?;
    if !is_left_over {
        return Err(error);
    }
    place.remove(path)?;
    place.bind(path)
}

/// Has the socket of the file at the path listen. If it can't, its file goes again.
fn opened<P: Place>(
    place: &mut P,
    socket: P::Socket,
    path: &str,
    mode: u32,
) -> io::Result<P::Listener>
    ensures { Does (Opens path.now mode (is_ok result)) (P.story place.old) (P.story place.new) }
{
    match ready(place, socket, path, mode) {
        Ok(listener) => Ok(listener),
        Err(error) => {
            let _ = place.remove(path);
            Err(error)
        }
    }
}

/// Has the socket listen once its file has its permissions, so that nobody can connect before.
fn ready<P: Place>(
    place: &mut P,
    socket: P::Socket,
    path: &str,
    mode: u32,
) -> io::Result<P::Listener>
    ensures { Does (Readies path.now mode (is_ok result)) (P.story place.old) (P.story place.new) }
{
    place.permit(path, mode)?;
    place.listen(socket)
}

/// Gives the path free, if the file that was taken still stands there.
pub fn give_free<P: Place>(place: &mut P, path: &str, taken: FileId)
    ensures { Does (GivesFree path.now taken) (P.story place.old) (P.story place.new) }
{
    let found = place.identify(path).ok();
    if found != Some(taken) {
        return;
    }
    let _ = place.remove(path);
}
