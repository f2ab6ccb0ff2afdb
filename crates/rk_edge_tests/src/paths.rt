//! A path that tells what is done there, how it is taken, and given free.
ghost use Rattle.std.specs.Prelude.{◌≡◌, [], ◌∷◌, ◌++◌, is_ok, map, Some, string_bytes};
ghost use Rattle.rk_daemon.specs.Taking.{GivesFree, Takes, file_taken};
ghost use Rattle.rk_edge_tests.specs.Done.{at_path};

use crate::done::AtPath;
use rk_daemon::{FileId, Place, give_free, take};
use std::alloc::{AllocError, Global};
use std::io;
use std::io::ErrorKind;
use std::process::Abort;

/// What stands at a path.
#[derive(Clone, Copy, Debug, PartialEq, Eq)]
enum Stands {
    /// Nothing.
    Nothing,
    /// A socket on which nobody listens.
    LeftOver,
    /// Another file, or a socket on which somebody listens.
    Another,
}

/// A path that tells what is done there. What stands there is given, and the call that fails, the first one being 0. Out of memory for what it keeps ends the
/// process.
#[derive(Drop)]
struct Telling<'a, R> {
    /// The host, which ends the test when memory runs out.
    rt: &'a R,
    /// Where memory for the copies comes from.
    alloc: Global,
    /// What lies at the path at first.
    stands: Stands,
    /// The number of the call that fails, counted from 0; one past the last fails none.
    fails: usize,
    /// What was done, first things first.
    done: Vec<AtPath>,
}

/// The file of a socket that is made, and that of another one.
const OWN: FileId = FileId {
    device: 1,
    number: 2,
    seconds: 3,
    nanoseconds: 4,
};

const OTHER: FileId = FileId {
    device: 1,
    number: 2,
    seconds: 5,
    nanoseconds: 4,
};

impl<'a, R: Abort> Telling<'a, R> {
    /// A path at which nothing was done. It takes no memory.
    fn new(rt: &'a R, alloc: Global, stands: Stands, fails: usize) -> Telling<'a, R>
        ensures { result.done.items ≡ [] }
    {
        Telling {
            rt,
            alloc,
            stands,
            fails,
            done: Vec::new(alloc),
        }
    }

    /// Whether the next call fails.
    fn is_to_fail(&self) -> bool {
        self.done.len() == self.fails
    }

    /// A copy of a path.
    fn copy(&self, path: &str) -> String
        ensures { string_bytes result ≡ path.now }
    {
        String::from_str(self.alloc, path).expect(self.rt, "memory")
    }

    /// Keeps what was done.
    fn keep(&mut self, done: AtPath)
        ensures { self.new.done.items ≡ self.old.done.items ++ done ∷ [] }
    {
        self.done.push(done).expect(self.rt, "memory");
    }
}

/// Done, or refused.
fn outcome(is_done: bool) -> io::Result<()>
    ensures { is_ok result ≡ is_done }
{
    if is_done {
        Ok(())
    } else {
        Err(io::Error::from(ErrorKind::PermissionDenied))
    }
}

impl<'a, R: Abort> Place for Telling<'a, R> {
    ghost story = { λ place. Some (map at_path place.done.items) };

    type Socket = ();

    type Listener = ();

    fn bind(&mut self, path: &str) -> io::Result<()> {
        let path = self.copy(path);
        if self.is_to_fail() {
            self.keep(AtPath::Bound(path, Some(ErrorKind::PermissionDenied)));
            return Err(io::Error::from(ErrorKind::PermissionDenied));
        }
        if self.stands != Stands::Nothing {
            self.keep(AtPath::Bound(path, Some(ErrorKind::AddrInUse)));
            return Err(io::Error::from(ErrorKind::AddrInUse));
        }
        self.keep(AtPath::Bound(path, None));
        Ok(())
    }

    fn permit(&mut self, path: &str, mode: u32) -> io::Result<()> {
        let (path, is_done) = (self.copy(path), !self.is_to_fail());
        self.keep(AtPath::Permitted(path, mode, is_done));
        outcome(is_done)
    }

    fn listen(&mut self, _socket: ()) -> io::Result<()> {
        let is_done = !self.is_to_fail();
        self.keep(AtPath::Listened(is_done));
        outcome(is_done)
    }

    fn is_left_over(&mut self, path: &str) -> io::Result<bool> {
        let path = self.copy(path);
        if self.is_to_fail() {
            self.keep(AtPath::Probed(path, None));
            return Err(io::Error::from(ErrorKind::PermissionDenied));
        }
        let is_left = self.stands == Stands::LeftOver;
        self.keep(AtPath::Probed(path, Some(is_left)));
        Ok(is_left)
    }

    fn identify(&mut self, path: &str) -> io::Result<FileId> {
        let path = self.copy(path);
        if self.is_to_fail() {
            self.keep(AtPath::Identified(path, None));
            return Err(io::Error::from(ErrorKind::NotFound));
        }
        let file = if self.stands == Stands::Another {
            OTHER
        } else {
            OWN
        };
        self.keep(AtPath::Identified(path, Some(file)));
        Ok(file)
    }

    fn remove(&mut self, path: &str) -> io::Result<()> {
        let (path, is_done) = (self.copy(path), !self.is_to_fail());
        self.keep(AtPath::Removed(path, is_done));
        if is_done {
            self.stands = Stands::Nothing;
        }
        outcome(is_done)
    }
}

/// Takes a path at which nothing was done: all that is done there takes it.
fn taken<R: Abort>(
    rt: &R,
    alloc: Global,
    stands: Stands,
    fails: usize,
    path: &str,
    mode: u32,
) -> (Vec<AtPath>, Option<FileId>)
    ensures { Takes path.now mode result.1 (map at_path result.0.items) }
{
    let mut place = Telling::new(rt, alloc, stands, fails);
    let outcome = take(&mut place, path, mode);
    (place.done, file_in(outcome))
}

/// Which file was taken, if one was.
fn file_in(outcome: io::Result<((), FileId)>) -> Option<FileId>
    ensures { result ≡ file_taken outcome }
{
    match outcome {
        Ok((_, file)) => Some(file),
        Err(_) => None,
    }
}

/// Gives a path free at which nothing was done: all that is done there does so.
fn given_free<R: Abort>(
    rt: &R,
    alloc: Global,
    stands: Stands,
    fails: usize,
    path: &str,
    file: FileId,
) -> Vec<AtPath>
    ensures { GivesFree path.now file (map at_path result.items) }
{
    let mut place = Telling::new(rt, alloc, stands, fails);
    give_free(&mut place, path, file);
    place.done
}

/// What was done, one letter for each, in capitals if it failed: b for a socket that is bound, p for permissions, l for one that listens, s for a look
/// whether it is left over, i for one which file it is, r for one that is removed.
fn letters(alloc: Global, done: &[AtPath]) -> Result<Vec<u8>, AllocError> {
    let mut letters = Vec::new(alloc);
    for one in done {
        letters.push(match one {
            AtPath::Bound(_, None) => b'b',
            AtPath::Bound(_, Some(_)) => b'B',
            AtPath::Permitted(_, _, true) => b'p',
            AtPath::Permitted(_, _, false) => b'P',
            AtPath::Listened(true) => b'l',
            AtPath::Listened(false) => b'L',
            AtPath::Probed(_, Some(_)) => b's',
            AtPath::Probed(_, None) => b'S',
            AtPath::Identified(_, Some(_)) => b'i',
            AtPath::Identified(_, None) => b'I',
            AtPath::Removed(_, true) => b'r',
            AtPath::Removed(_, false) => b'R',
        })?;
    }
    Ok(letters)
}

/// So many calls never come.
const NEVER: usize = 100;

/// What stands at the path, the call that fails, what is done, and whether the path is taken.
const TAKINGS: &[(Stands, usize, &[u8], bool)] = &[
    (Stands::Nothing, NEVER, b"bpli", true),
    (Stands::Nothing, 0, b"B", false),
    (Stands::Nothing, 1, b"bPr", false),
    (Stands::Nothing, 2, b"bpLr", false),
    (Stands::Nothing, 3, b"bplI", false),
    (Stands::LeftOver, NEVER, b"Bsrbpli", true),
    (Stands::LeftOver, 0, b"B", false),
    (Stands::LeftOver, 1, b"BS", false),
    (Stands::LeftOver, 2, b"BsR", false),
    (Stands::LeftOver, 3, b"BsrB", false),
    (Stands::LeftOver, 4, b"BsrbPr", false),
    (Stands::Another, NEVER, b"Bs", false),
];

/// What stands at the path, the call that fails, and what is done.
const GIVINGS: &[(Stands, usize, &[u8])] = &[
    (Stands::Nothing, NEVER, b"ir"),
    (Stands::Nothing, 0, b"I"),
    (Stands::Nothing, 1, b"iR"),
    (Stands::Another, NEVER, b"i"),
];

#[test]
fn a_path_is_taken(rt: HostRuntime) {
    for (stands, fails, wanted, is_taken) in TAKINGS {
        let (done, file) = taken(&rt, rt.alloc(), *stands, *fails, "/run/socket", 0o660);
        let letters = letters(rt.alloc(), &done).expect(&rt, "memory");
        assert_eq!(rt; letters.as_slice(), *wanted);
        assert_eq!(rt; file.is_some(), *is_taken);
    }
}

#[test]
fn a_path_is_given_free(rt: HostRuntime) {
    for (stands, fails, wanted) in GIVINGS {
        let done = given_free(&rt, rt.alloc(), *stands, *fails, "/run/socket", OWN);
        let letters = letters(rt.alloc(), &done).expect(&rt, "memory");
        assert_eq!(rt; letters.as_slice(), *wanted);
    }
}
