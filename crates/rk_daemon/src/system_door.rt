//! The door of the system.
ghost use Rattle.std.specs.Prelude.{◌≡◌, ◌↔◌, ◌≤ℤ◌, IsTrue, None, pos};

use crate::door::Door;
use crate::entrance::Entrance;
use crate::workers::Client;
use crossbeam_channel::Sender;
use libc::net::{POLLIN, poll};
use libc::types::pollfd;
use log::Log;
use rk_frame::MAX_PIECE;
use std::os::fd::AsRawFd;
use std::os::unix::net::{UnixListener, UnixStream};
use std::sync::Wait;
use std::time::{Clock, Duration};
use std::{io, thread};

/// How many milliseconds it waits after an accept that failed.
const PAUSE: u64 = 100;

/// A socket that listens, standard input, and a channel to the workers. Once it is let go, nobody can connect, and the workers get no more.
#[derive(Drop)]
pub struct SystemDoor<'a, R, L> {
    /// What calls the system.
    rt: &'a R,
    /// Where a warning goes that connections wait.
    log: &'a L,
    /// Where clients connect.
    listener: UnixListener,
    /// What connections find.
    entrance: Entrance<'a>,
    /// Where the workers get them.
    workers: Sender<Client>,
}

impl<'a, R: Wait + Clock, L: Log> SystemDoor<'a, R, L> {
    /// A door at this listener, that leads to these workers. It takes no memory.
    pub fn new(
        rt: &'a R,
        log: &'a L,
        listener: UnixListener,
        entrance: Entrance<'a>,
        workers: Sender<Client>,
    ) -> SystemDoor<'a, R, L> {
        SystemDoor {
            rt,
            log,
            listener,
            entrance,
            workers,
        }
    }
}

impl<'a, R: Wait + Clock, L: Log> Door for SystemDoor<'a, R, L> {
    ghost story = { λ door. None };

    type Connection = UnixStream;

    fn is_over(&mut self) -> bool {
        has_ended_first(self.rt, &self.listener)
    }

    fn accept(&mut self) -> io::Result<UnixStream> {
        match self.listener.accept() {
            Ok((stream, _)) => Ok(stream),
            Err(error) => Err(error),
        }
    }

    fn pause(&mut self) {
        thread::sleep(self.rt, Duration::from_millis(PAUSE));
    }

    fn hand_out(&mut self, number: u32, stream: UnixStream) -> bool {
        self.entrance.come(self.log);
        self.workers
            .send(self.rt, Client { number, stream })
            .is_ok()
    }
}

/// Waits for a connection, or the end of standard input; whether that has come first. What standard input has is dropped.
fn has_ended_first<R: Wait>(rt: &R, listener: &UnixListener) -> bool {
    for _ in rt.forever() {
        let mut asked = [asked_of(libc::STDIN_FILENO), asked_of(listener.as_raw_fd())];
        poll(&mut asked, -1);
        if asked[0].revents != 0 && has_ended() {
            return true;
        }
        if asked[1].revents != 0 {
            return false;
        }
    }
    false
}

/// Asks whether a descriptor can be read (`poll(2)`).
fn asked_of(descriptor: i32) -> pollfd
    ensures { result ≡ record { fd = descriptor; events = POLLIN; revents = pos 0 } }
{
    pollfd {
        fd: descriptor,
        events: POLLIN,
        revents: 0,
    }
}

/// Reads some of standard input, which can be read; whether there is no more, or no more can be read.
fn has_ended() -> bool {
    let mut piece = [0u8; MAX_PIECE];
    is_end(libc::read(libc::STDIN_FILENO, &mut piece))
}

/// Whether a read that returned this count has found the end of its input, or has failed (`read(2)`).
fn is_end(count: isize) -> bool
    ensures { IsTrue result ↔ (count ≤ℤ pos 0) }
{
    count <= 0
}
