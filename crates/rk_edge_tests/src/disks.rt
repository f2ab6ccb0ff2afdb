//! A disk that tells what is read of it, and how the files of a record are rejoined.
ghost use Rattle.std.specs.Prelude.{◌≡◌, [], ◌∷◌, ◌++◌, IfErr, IfOk, map, Some, string_bytes};
ghost use Rattle.rk_rejoin.specs.Rejoined.{AreRejoined};
ghost use Rattle.rk_rejoin.specs.Unread.{AreRefused};
ghost use Rattle.rk_edge_tests.specs.Done.{from_disk};

use crate::done::FromDisk;
use rk_machine::{Event, done};
use rk_names::{Moment, SessionId};
use rk_record::{HallNo, Recorded};
use rk_rejoin::{Disk, FilesFault, ReadFault, Total, rejoin_files};
use rk_volumes::{Head, Seal, Sum};
use std::alloc::Global;
use std::process::Abort;

/// A file of a disk.
#[derive(Clone, Copy)]
struct File<'a> {
    path: &'static str,
    /// Its bytes, or why it can't be read.
    has: Result<&'a [u8], ReadFault>,
}

/// What the file at a path has, if there is one.
fn found<'a>(files: &[File<'a>], path: &str) -> Result<&'a [u8], ReadFault> {
    for file in files {
        if file.path == path {
            return file.has;
        }
    }
    Err(ReadFault::Unreadable)
}

/// A disk that tells what is read of it. Its files are given. Out of memory for what it keeps ends the process.
#[derive(Drop)]
struct Telling<'a, R> {
    /// The host, which ends the test when memory runs out.
    rt: &'a R,
    /// Where memory for the copies comes from.
    alloc: Global,
    files: &'a [File<'a>],
    /// What was read, first things first.
    done: Vec<FromDisk>,
}

impl<'a, R: Abort> Telling<'a, R> {
    /// A disk of which nothing was read. It takes no memory.
    fn new(rt: &'a R, alloc: Global, files: &'a [File<'a>]) -> Telling<'a, R>
        ensures { result.done.items ≡ [] }
    {
        Telling {
            rt,
            alloc,
            files,
            done: Vec::new(alloc),
        }
    }

    /// A copy of a path.
    fn text(&self, path: &str) -> String
        ensures { string_bytes result ≡ path.now }
    {
        String::from_str(self.alloc, path).expect(self.rt, "memory")
    }

    /// A copy of bytes.
    fn copy(&self, bytes: &[u8]) -> Vec<u8>
        ensures { result.items ≡ bytes.now }
    {
        bytes.to_vec(self.alloc).expect(self.rt, "memory")
    }

    /// Keeps what was read.
    fn keep(&mut self, path: String, outcome: Result<Vec<u8>, ReadFault>)
        ensures { self.new.done.items ≡ self.old.done.items ++ record { path = path; outcome = outcome } ∷ [] }
    {
        let read = FromDisk { path, outcome };
        self.done.push(read).expect(self.rt, "memory");
    }
}

impl<'a, R: Abort> Disk for Telling<'a, R> {
    ghost story = { λ disk. Some (map from_disk disk.done.items) };

    fn read(&mut self, path: &str) -> Result<Vec<u8>, ReadFault> {
        let name = self.text(path);
        match found(self.files, path) {
            Ok(bytes) => {
                let (kept, given) = (self.copy(bytes), self.copy(bytes));
                self.keep(name, Ok(kept));
                Ok(given)
            }
            Err(fault) => {
                self.keep(name, Err(fault));
                Err(fault)
            }
        }
    }
}

/// Rejoins files of a disk of which nothing was read: what is answered is so of all that is read of it.
fn rejoined<'a, R: Abort>(
    rt: &R,
    alloc: Global,
    files: &[File<'_>],
    paths: &'a [String],
) -> (Vec<FromDisk>, Result<Total, FilesFault<'a>>)
    ensures rejoined { IfOk result.1 (λ total. AreRejoined (map string_bytes paths.now) total (map from_disk result.0.items)) }
    ensures refused { IfErr result.1 (λ fault. AreRefused (map string_bytes paths.now) fault (map from_disk result.0.items)) }
{
    let mut disk = Telling::new(rt, alloc, files);
    let outcome = rejoin_files(alloc, &mut disk, paths);
    (disk.done, outcome)
}

/// The client of the volumes.
const CLIENT: SessionId = SessionId::Client(1);

/// The bytes of a volume with one step, which was done, and their sum.
fn volume<R: Abort>(
    rt: &R,
    alloc: Global,
    head: &Head,
    previous: Sum,
    event: Event,
) -> (Vec<u8>, Sum) {
    let seal = Seal {
        closing: false,
        run: [7; 16],
        previous,
    };
    let steps = [Recorded {
        now: Moment(2),
        event,
        answer: done(),
    }];
    let mut bytes = Vec::new(alloc);
    let sum = seal.store(alloc, head, &steps, &mut bytes);
    (bytes, sum.expect(rt, "memory"))
}

/// The head of a volume of a hall, before which so many have one step each.
fn head(hall: HallNo, before: u32) -> Head {
    let before = u64::from(before);
    Head {
        hall,
        negative: 60,
        index: before + 1,
        before,
    }
}

/// Whether this is said of files.
fn is_said<R: Abort>(
    rt: &R,
    alloc: Global,
    outcome: &Result<Total, FilesFault<'_>>,
    wanted: &str,
) -> bool {
    let text = match outcome {
        Ok(total) => format!(in alloc; "{total}"),
        Err(fault) => format!(in alloc; "{fault}"),
    };
    text.expect(rt, "memory").as_str() == wanted
}

/// Copies of paths.
fn texts<R: Abort>(rt: &R, alloc: Global, paths: &[&str]) -> Vec<String> {
    let mut texts = Vec::new(alloc);
    for path in paths {
        let text = String::from_str(alloc, path).expect(rt, "memory");
        texts.push(text).expect(rt, "memory");
    }
    texts
}

/// Whether this is what is read of the file at a path.
fn is_of(files: &[File<'_>], path: &str, read: &FromDisk) -> bool {
    read.path.as_str() == path
        && match (found(files, path), &read.outcome) {
            (Ok(bytes), Ok(read)) => bytes == read.as_slice(),
            (Err(fault), Err(read)) => fault == *read,
            (Ok(_), Err(_)) | (Err(_), Ok(_)) => false,
        }
}

/// Whether this is what is read of the first of the files at these paths.
fn are_of(files: &[File<'_>], paths: &[&str], read: &[FromDisk]) -> bool {
    read.iter()
        .zip(paths)
        .all(|(one, path)| is_of(files, path, one))
}

/// What is said of two volumes of hall 0 and one of hall 1.
const WHOLE: &str =
    "hall 0: 2 volumes, 2 steps\nhall 1: 1 volumes, 1 steps\nok, 2 halls, 3 steps: a run of the machine; later volumes may be missing\n";

/// Files, what is said of them, and how many of them are read.
const REJOININGS: &[(&[&str], &str, usize)] = &[
    (&["0-1", "0-2", "1-1"], WHOLE, 3),
    (&["1-1", "0-2", "0-1"], WHOLE, 3),
    (&["0-2", "1-1", "0-1"], WHOLE, 3),
    (&["0-1", "none", "0-2"], "none: it can't be read", 2),
    (&["0-1", "0-2", "large", "1-1"], "memory", 3),
    (
        &["cut", "0-1"],
        "cut: its sum is not that of its bytes, so that it was cut or changed",
        1,
    ),
    (&["0-2", "1-1"], "hall 0, volume 1: it is missing", 2),
    (&[], "there is no volume", 0),
];

/// Rejoins files of a disk, as the table has them.
fn rejoin_all<R: Abort>(rt: &R, alloc: Global, files: &[File<'_>]) {
    for (paths, wanted, count) in REJOININGS {
        let names = texts(rt, alloc, paths);
        let (read, outcome) = rejoined(rt, alloc, files, &names);
        assert!(rt; is_said(rt, alloc, &outcome, wanted));
        assert_eq!(rt; read.len(), *count);
        assert!(rt; are_of(files, paths, &read));
    }
}

#[test]
fn files_are_rejoined(rt: HostRuntime) {
    let alloc = rt.alloc();
    let none = [0; 32];
    let (first, sum) = volume(
        &rt,
        alloc,
        &head(HallNo::Zero, 0),
        none,
        Event::Opened(CLIENT),
    );
    let (second, _) = volume(&rt, alloc, &head(HallNo::Zero, 1), sum, Event::Gone(CLIENT));
    let (other, _) = volume(
        &rt,
        alloc,
        &head(HallNo::One, 0),
        none,
        Event::Opened(CLIENT),
    );
    let files = [
        File {
            path: "0-1",
            has: Ok(first.as_slice()),
        },
        File {
            path: "0-2",
            has: Ok(second.as_slice()),
        },
        File {
            path: "1-1",
            has: Ok(other.as_slice()),
        },
        File {
            path: "cut",
            has: Ok(&first[..first.len() / 2]),
        },
        File {
            path: "large",
            has: Err(ReadFault::NoMemory),
        },
    ];
    rejoin_all(&rt, alloc, &files);
}
