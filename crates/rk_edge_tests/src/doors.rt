//! A door that tells what is done there, and how connections come in by it.
ghost use Rattle.std.specs.Prelude.{◌≡◌, [], ◌∷◌, ◌++◌, is_ok, map, Some};
ghost use Rattle.rk_daemon.specs.Accepting.{Accepts};
ghost use Rattle.rk_edge_tests.specs.Done.{at_door};

use crate::done::AtDoor;
use rk_daemon::{Door, Until, accept};
use std::alloc::Global;
use std::io;
use std::io::ErrorKind;
use std::process::Abort;
use std::sync::Wait;

/// What comes next at a door.
#[derive(Clone, Copy, Debug, PartialEq, Eq)]
enum Comes {
    /// A connection, which workers take.
    Taken,
    /// A connection, and no workers are left.
    Left,
    /// A connection that can't be accepted.
    Barred,
    /// The end of standard input.
    Over,
}

/// A door that tells what is done there. What comes there is given; after that, standard input has ended, and no workers are left. Out of memory for what it
/// keeps ends the process.
#[derive(Drop)]
struct Telling<'a, R> {
    rt: &'a R,
    comes: &'a [Comes],
    /// What was done, first things first.
    done: Vec<AtDoor>,
}

impl<'a, R: Abort> Telling<'a, R> {
    /// A door at which nothing was done. It takes no memory.
    fn new(rt: &'a R, alloc: Global, comes: &'a [Comes]) -> Telling<'a, R>
        ensures { result.done.items ≡ [] }
    {
        Telling {
            rt,
            comes,
            done: Vec::new(alloc),
        }
    }

    /// What comes next.
    fn front(&self) -> Comes {
        match self.comes.first() {
            Some(next) => *next,
            None => Comes::Left,
        }
    }

    /// That has come.
    fn pass(&mut self)
        ensures { self.new.done.items ≡ self.old.done.items }
    {
        if let Some((_, others)) = self.comes.split_first() {
            self.comes = others;
        }
    }

    /// Keeps what was done.
    fn keep(&mut self, done: AtDoor)
        ensures { self.new.done.items ≡ self.old.done.items ++ done ∷ [] }
    {
        self.done.push(done).expect(self.rt, "memory");
    }
}

impl<'a, R: Abort> Door for Telling<'a, R> {
    ghost story = { λ door. Some (map at_door door.done.items) };

    type Connection = ();

    fn is_over(&mut self) -> bool {
        let is_over = self.front() == Comes::Over;
        self.keep(AtDoor::Watched(is_over));
        is_over
    }

    fn accept(&mut self) -> io::Result<()> {
        let is_done = self.front() != Comes::Barred;
        self.keep(AtDoor::Accepted(is_done));
        if is_done {
            return Ok(());
        }
        self.pass();
        Err(io::Error::from(ErrorKind::OutOfMemory))
    }

    fn pause(&mut self) {
        self.keep(AtDoor::Paused);
    }

    fn hand_out(&mut self, number: u32, _connection: ()) -> bool {
        let is_taken = self.front() == Comes::Taken;
        self.pass();
        self.keep(AtDoor::HandedOut(number, is_taken));
        is_taken
    }
}

/// Accepts what comes at a door at which nothing was done: all that is done there accepts connections, numbered from 1.
fn accepted<R: Abort + Wait>(rt: &R, alloc: Global, comes: &[Comes], until: Until) -> Vec<AtDoor>
    ensures { Accepts until 0 (map at_door result.items) }
{
    let mut door = Telling::new(rt, alloc, comes);
    let log: Option<HostRuntime> = None;
    accept(rt, &log, &mut door, until);
    door.done
}

/// What comes, after how many connections it ends, whether it ends with standard input, and what is done.
const ACCEPTINGS: &[(&[Comes], u32, bool, &[AtDoor])] = &[
    (
        &[Comes::Taken, Comes::Barred, Comes::Taken, Comes::Taken],
        2,
        false,
        &[
            AtDoor::Accepted(true),
            AtDoor::HandedOut(1, true),
            AtDoor::Accepted(false),
            AtDoor::Paused,
            AtDoor::Accepted(true),
            AtDoor::HandedOut(2, true),
        ],
    ),
    (
        &[Comes::Taken, Comes::Over],
        0,
        true,
        &[
            AtDoor::Watched(false),
            AtDoor::Accepted(true),
            AtDoor::HandedOut(1, true),
            AtDoor::Watched(true),
        ],
    ),
    (
        &[Comes::Taken, Comes::Left, Comes::Taken],
        0,
        false,
        &[
            AtDoor::Accepted(true),
            AtDoor::HandedOut(1, true),
            AtDoor::Accepted(true),
            AtDoor::HandedOut(2, false),
        ],
    ),
];

#[test]
fn connections_come_in(rt: HostRuntime) {
    for (comes, clients, eof, wanted) in ACCEPTINGS {
        let until = Until {
            clients: *clients,
            eof: *eof,
        };
        let done = accepted(&rt, rt.alloc(), comes, until);
        assert_eq!(rt; done.as_slice(), *wanted);
    }
}
