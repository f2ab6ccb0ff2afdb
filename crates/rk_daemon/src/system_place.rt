//! Paths of the system.
ghost use Rattle.std.specs.Prelude.{◌≡◌, None};
ghost use Rattle.rk_daemon.specs.Place.{is_of_nobody};

use crate::place::{FileId, Place};
use std::fs::Files;
use std::io::ErrorKind;
use std::net::Net;
use std::os::fd::{AsFd, AsRawFd, OwnedFd};
use std::os::unix::fs::{FileTypeExt, MetadataExt, PermissionsExt};
use std::os::unix::net::{SocketAddr, UnixListener, UnixStream};
use std::{fs, io};

/// As many connections may wait as the system allows (`listen(2)`).
const BACKLOG: i32 = -1;

/// The files and sockets of the system.
#[derive(Drop)]
pub struct SystemPlace<'a, R> {
    /// What calls it.
    rt: &'a R,
}

impl<'a, R: Files + Net> SystemPlace<'a, R> {
    /// The files and sockets of this system. It takes no memory.
    pub fn new(rt: &'a R) -> SystemPlace<'a, R> {
        SystemPlace { rt }
    }
}

impl<'a, R: Files + Net> Place for SystemPlace<'a, R> {
    ghost story = { λ place. None };

    type Socket = OwnedFd;

    type Listener = UnixListener;

    fn bind(&mut self, path: &str) -> io::Result<OwnedFd> {
        let address = SocketAddr::from_pathname(path)?;
        let socket = self.rt.unix_socket()?;
        self.rt.bind_unix(socket.as_fd(), &address)?;
        Ok(socket)
    }

    fn permit(&mut self, path: &str, mode: u32) -> io::Result<()> {
        fs::set_permissions(self.rt, path, fs::Permissions::from_mode(mode))
    }

    fn listen(&mut self, socket: OwnedFd) -> io::Result<UnixListener> {
        if libc::net::listen(socket.as_raw_fd(), BACKLOG) != 0 {
            return Err(io::Error::from(ErrorKind::Other));
        }
        Ok(UnixListener::from(socket))
    }

    fn is_left_over(&mut self, path: &str) -> io::Result<bool> {
        match fs::symlink_metadata(self.rt, path) {
            Ok(found) if !found.file_type().is_socket() => return Ok(false),
            Ok(_) => {}
            Err(error) if error.kind() == ErrorKind::NotFound => return Ok(true),
            Err(error) => return Err(error),
        }
        match UnixStream::connect(self.rt, path) {
            Ok(_) => Ok(false),
            Err(error) => Ok(is_of_nobody(error.kind())),
        }
    }

    fn identify(&mut self, path: &str) -> io::Result<FileId> {
        let found = fs::symlink_metadata(self.rt, path)?;
        Ok(FileId {
            device: found.dev(),
            number: found.ino(),
            seconds: found.mtime(),
            nanoseconds: found.mtime_nsec(),
        })
    }

    fn remove(&mut self, path: &str) -> io::Result<()> {
        match fs::remove_file(self.rt, path) {
            Err(error) if error.kind() == ErrorKind::NotFound => Ok(()),
            removed => removed,
        }
    }
}

/// Whether a connect that has failed so says that nobody listens: it is refused (`connect(2)`), or the file has gone meanwhile. One whose queue is full, or
/// that may not be opened, is somebody's.
fn is_of_nobody(kind: ErrorKind) -> bool
    ensures { result ≡ is_of_nobody kind }
{
    matches!(kind, ErrorKind::ConnectionRefused | ErrorKind::NotFound)
}
