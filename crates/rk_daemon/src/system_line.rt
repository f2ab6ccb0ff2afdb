//! Lines of the system.
ghost use Rattle.std.specs.Prelude.{None};

use crate::line::Line;
use std::io;
use std::io::{Read, Write};
use std::os::unix::net::UnixStream;
use std::time::{Clock, Duration};

/// A socket, and the system's monotonic clock.
#[derive(Drop)]
pub struct SystemLine<'a, R> {
    /// What has the clock.
    rt: &'a R,
    /// The connection to the client.
    stream: UnixStream,
}

impl<'a, R: Clock> SystemLine<'a, R> {
    /// The line over this socket. It takes no memory.
    pub fn new(rt: &'a R, stream: UnixStream) -> SystemLine<'a, R> {
        SystemLine { rt, stream }
    }

    /// Has each read and each write fail that has waited for so long (SO_RCVTIMEO and SO_SNDTIMEO of socket(7)).
    pub fn bound(&self, time: Duration) -> io::Result<()> {
        self.stream.set_read_timeout(Some(time))?;
        self.stream.set_write_timeout(Some(time))
    }
}

impl<'a, R: Clock> Line for SystemLine<'a, R> {
    ghost story = { λ line. None };

    #[inline(always)]
    fn read(&mut self, buf: &mut [u8]) -> io::Result<usize> {
        self.stream.read(buf)
    }

    #[inline(always)]
    fn write(&mut self, bytes: &[u8]) -> io::Result<usize> {
        self.stream.write(bytes)
    }

    // (It is not inlined: it is rare, and whoever calls it would have room for it on the stack at each read.)
    #[cold]
    #[inline(never)]
    fn seconds(&mut self) -> u64 {
        match self.rt.monotonic() {
            Ok(passed) => passed.as_secs(),
            Err(_) => 0,
        }
    }
}
