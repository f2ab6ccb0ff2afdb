//! A folder that tells what is done there, and how a volume is kept in it.
ghost use Rattle.std.specs.Prelude.{◌≡◌, [], ◌∷◌, ◌++◌, is_ok, map, Some, string_bytes};
ghost use Rattle.rk_daemon.specs.Keeping.{Keeps};
ghost use Rattle.rk_edge_tests.specs.Done.{in_folder};

use crate::done::InFolder;
use rk_daemon::{Folder, keep};
use rk_record::{HallNo, Recorded};
use rk_volumes::{Head, Seal, Sum};
use std::alloc::{AllocError, Global};
use std::io;
use std::io::{ErrorKind, Write};
use std::process::Abort;

/// A file that keeps what is written, unless it is full.
#[derive(Drop)]
struct Memory {
    /// What was written, in order.
    bytes: Vec<u8>,
    /// Whether each write is refused with ENOSPC.
    is_full: bool,
}

impl Write for Memory {
    ghost contents = { λ file. Some file.bytes.items };

    fn write(&mut self, buf: &[u8]) -> io::Result<usize> {
        if self.is_full {
            return Err(io::Error::from(ErrorKind::StorageFull));
        }
        self.bytes.extend_from_slice(buf)?;
        Ok(buf.len())
    }

    fn flush(&mut self) -> io::Result<()> {
        Ok(())
    }
}

/// A folder that tells what is done there, and fails as it is given. Out of memory for what it keeps ends the process.
#[derive(Drop)]
struct Telling<'a, R> {
    /// The host, which ends the test when memory runs out.
    rt: &'a R,
    /// Where memory for the copies comes from.
    alloc: Global,
    /// Which calls fail.
    fails: Fails,
    /// What was done, first things first.
    done: Vec<InFolder>,
}

impl<'a, R: Abort> Telling<'a, R> {
    /// A folder in which nothing was done. It takes no memory.
    fn new(rt: &'a R, alloc: Global, fails: Fails) -> Telling<'a, R>
        ensures { result.done.items ≡ [] }
    {
        Telling {
            rt,
            alloc,
            fails,
            done: Vec::new(alloc),
        }
    }

    /// A copy of a path.
    fn copy(&self, path: &str) -> String
        ensures { string_bytes result ≡ path.now }
    {
        String::from_str(self.alloc, path).expect(self.rt, "memory")
    }

    /// Keeps what was done.
    fn keep(&mut self, done: InFolder)
        ensures { self.new.done.items ≡ self.old.done.items ++ done ∷ [] }
    {
        self.done.push(done).expect(self.rt, "memory");
    }
}

/// Done, or refused.
fn outcome(is_done: bool) -> io::Result<()>
    ensures { is_ok result ≡ is_done }
{
    if is_done {
        Ok(())
    } else {
        Err(io::Error::from(ErrorKind::PermissionDenied))
    }
}

impl<'a, R: Abort> Folder for Telling<'a, R> {
    ghost story = { λ folder. Some (map in_folder folder.done.items) };

    type File = Memory;

    fn create(&mut self, path: &str) -> io::Result<Memory> {
        let path = self.copy(path);
        if self.done.len() == self.fails.call {
            self.keep(InFolder::Created(path, false));
            return Err(io::Error::from(ErrorKind::AlreadyExists));
        }
        self.keep(InFolder::Created(path, true));
        Ok(Memory {
            bytes: Vec::new(self.alloc),
            is_full: self.fails.is_full,
        })
    }

    fn flush(&mut self, file: Memory) -> io::Result<()> {
        let is_done = self.done.len() != self.fails.call;
        self.keep(InFolder::Flushed(file.bytes, is_done));
        outcome(is_done)
    }

    fn link(&mut self, from: &str, to: &str) -> io::Result<()> {
        let is_done = self.done.len() != self.fails.call;
        let (from, to) = (self.copy(from), self.copy(to));
        self.keep(InFolder::Linked(from, to, is_done));
        outcome(is_done)
    }

    fn remove(&mut self, path: &str) -> io::Result<()> {
        let is_done = self.done.len() != self.fails.call;
        let path = self.copy(path);
        self.keep(InFolder::Removed(path, is_done));
        outcome(is_done)
    }
}

/// What fails: whether files are full, and which call does, the first one being 0.
#[derive(Clone, Copy)]
struct Fails {
    /// Whether each file of the folder is full from the start.
    is_full: bool,
    /// The number of the call that fails, counted from 0; one past the last fails none.
    call: usize,
}

/// The seal of a first volume, and its head.
const SEAL: Seal = Seal {
    closing: true,
    run: [7; 16],
    previous: [0; 32],
};

const HEAD: Head = Head {
    hall: HallNo::Two,
    negative: 60,
    index: 12,
    before: 0,
};

/// Keeps a volume in a folder in which nothing was done: all that is done there keeps it.
fn kept<R: Abort>(
    rt: &R,
    alloc: Global,
    fails: Fails,
    folder: &str,
    steps: &[Recorded],
) -> (Vec<InFolder>, Option<Sum>)
    ensures { Keeps folder.now HEAD steps.now SEAL result.1 (map in_folder result.0.items) }
{
    let mut files = Telling::new(rt, alloc, fails);
    let sum = keep(alloc, &mut files, folder, &SEAL, &HEAD, steps).ok();
    (files.done, sum)
}

/// What was done, one letter for each, in capitals if it failed: c for a file that is made, f for one that is handed to the system, l for one that gets a
/// second path, r for one that is removed.
fn letters(alloc: Global, done: &[InFolder]) -> Result<Vec<u8>, AllocError> {
    let mut letters = Vec::new(alloc);
    for one in done {
        letters.push(match one {
            InFolder::Created(_, true) => b'c',
            InFolder::Created(_, false) => b'C',
            InFolder::Flushed(_, true) => b'f',
            InFolder::Flushed(_, false) => b'F',
            InFolder::Linked(_, _, true) => b'l',
            InFolder::Linked(_, _, false) => b'L',
            InFolder::Removed(_, true) => b'r',
            InFolder::Removed(_, false) => b'R',
        })?;
    }
    Ok(letters)
}

/// Whether files are full, the call that fails, what is done, and whether the volume is kept.
const KEEPINGS: &[(bool, usize, &[u8], bool)] = &[
    (false, 100, b"cflr", true),
    (false, 0, b"C", false),
    (true, 100, b"cr", false),
    (false, 1, b"cFr", false),
    (false, 2, b"cfLr", false),
    (false, 3, b"cflR", true),
];

#[test]
fn a_volume_is_kept(rt: HostRuntime) {
    for (is_full, call, wanted, is_kept) in KEEPINGS {
        let fails = Fails {
            is_full: *is_full,
            call: *call,
        };
        let (done, sum) = kept(&rt, rt.alloc(), fails, "/var/record", &[]);
        let letters = letters(rt.alloc(), &done).expect(&rt, "memory");
        assert_eq!(rt; letters.as_slice(), *wanted);
        assert_eq!(rt; sum.is_some(), *is_kept);
    }
}

#[test]
fn its_file_has_its_name(rt: HostRuntime) {
    let fails = Fails {
        is_full: false,
        call: 100,
    };
    let (done, _) = kept(&rt, rt.alloc(), fails, "/var/record", &[]);
    let Some(InFolder::Linked(from, to, true)) = done.get(2) else {
        panic!(rt; "no link");
    };
    assert_eq!(rt; from.as_str(), "/var/record/.hall-2-volume-000012.part");
    assert_eq!(rt; to.as_str(), "/var/record/hall-2-volume-000012");
}
