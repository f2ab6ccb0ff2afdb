//! A connection on which nothing is waited for after a deadline.

use crate::deadline::Deadline;
use std::io;
use std::io::{ErrorKind, Read, Write};
use std::net::Net;
use std::os::unix::net::UnixStream;
use std::thread::sleep;
use std::time::{Clock, Duration};

/// For how many milliseconds a connection that finds no room in the daemon's queue waits before it tries again.
const PAUSE: u64 = 10;

/// Connects to the socket at this path. With a deadline, `TimedOut` if the daemon's queue has no room before it.
pub fn connect<R: Net + Clock>(
    rt: &R,
    path: &str,
    deadline: Option<Deadline>,
) -> io::Result<UnixStream> {
    match deadline {
        Some(deadline) => connect_before(rt, path, deadline),
        None => UnixStream::connect(rt, path),
    }
}

/// Connects before the deadline. A connection that would wait fails at once here (connect(2), EAGAIN), and is tried again.
fn connect_before<R: Net + Clock>(
    rt: &R,
    path: &str,
    deadline: Deadline,
) -> io::Result<UnixStream> {
    for _ in 0..u64::MAX {
        match mio::net::UnixStream::connect(rt, path) {
            Ok(stream) => {
                let stream = UnixStream::from(stream);
                stream.set_nonblocking(false)?;
                return Ok(stream);
            }
            Err(error) if error.kind() == ErrorKind::WouldBlock => {}
            Err(error) => return Err(error),
        }
        sleep(rt, deadline.left(rt)?.min(Duration::from_millis(PAUSE)));
    }
    Err(io::Error::from(ErrorKind::TimedOut))
}

/// A connection whose reads and writes fail once the deadline is over, if there is one.
#[derive(Drop)]
pub struct Patient<'a, R> {
    /// The clock.
    rt: &'a R,
    /// The connection.
    stream: &'a UnixStream,
    /// When to give up.
    deadline: Option<Deadline>,
}

impl<'a, R: Clock> Patient<'a, R> {
    /// This connection, with a deadline.
    pub fn new(rt: &'a R, stream: &'a UnixStream, deadline: Option<Deadline>) -> Patient<'a, R> {
        Patient {
            rt,
            stream,
            deadline,
        }
    }
}

impl<'a, R: Clock> Read for Patient<'a, R> {
    fn read(&mut self, buf: &mut [u8]) -> io::Result<usize> {
        if let Some(deadline) = self.deadline {
            self.stream.set_read_timeout(Some(deadline.left(self.rt)?))?;
        }
        let mut stream = self.stream;
        stream.read(buf)
    }
}

impl<'a, R: Clock> Write for Patient<'a, R> {
    fn write(&mut self, buf: &[u8]) -> io::Result<usize> {
        if let Some(deadline) = self.deadline {
            self.stream
                .set_write_timeout(Some(deadline.left(self.rt)?))?;
        }
        let mut stream = self.stream;
        stream.write(buf)
    }

    fn flush(&mut self) -> io::Result<()> {
        Ok(())
    }
}
