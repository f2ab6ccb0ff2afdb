//! The standard streams of this process.
ghost use Rattle.std.specs.Prelude.{None};

use crate::standard::{Standard, Stream};
use libc::net::{POLLNVAL, poll};
use libc::types::pollfd;
use std::fs::{Files, OpenOptions};
use std::io;

/// What is read as an empty file, and drops what is written.
const NOTHING: &str = "/dev/null";

/// The descriptors of this process.
#[derive(Drop)]
pub struct SystemStandard<'a, R> {
    /// What calls the system.
    rt: &'a R,
}

impl<'a, R: Files> SystemStandard<'a, R> {
    /// Those of this process. It takes no memory.
    pub fn new(rt: &'a R) -> SystemStandard<'a, R> {
        SystemStandard { rt }
    }
}

impl<'a, R: Files> Standard for SystemStandard<'a, R> {
    ghost story = { λ streams. None };

    type File = R::File;

    fn is_closed(&mut self, stream: Stream) -> bool {
        let mut asked = [pollfd {
            fd: stream.descriptor(),
            events: 0,
            revents: 0,
        }];
        poll(&mut asked, 0);
        asked[0].revents & POLLNVAL != 0
    }

    fn open(&mut self) -> io::Result<R::File> {
        OpenOptions::new()
            .read(true)
            .write(true)
            .open(self.rt, NOTHING)
    }
}
