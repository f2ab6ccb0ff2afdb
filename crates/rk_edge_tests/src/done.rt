//! What is done outside of a program, kept. It stands here, and not among the tests, since `specs/` says what it means.

use rk_client::PeerFault;
use rk_daemon::{Clients, Figures, FileId, InRun, Stream};
use rk_hall::{Counts, HallNo};
use rk_message::{Ask, Reply};
use rk_rejoin::ReadFault;
use rk_run::{Here, StartFault};
use rk_volumes::{Head, Seal, Sum};
use std::io::ErrorKind;
use std::process::{Command, ExitStatus};

/// What is done at the path of a socket, and how it has failed, or what was found.
#[derive(Drop)]
pub enum AtPath {
    /// A socket is bound to it.
    Bound(String, Option<ErrorKind>),
    /// Its file gets permissions.
    Permitted(String, u32, bool),
    /// The socket listens.
    Listened(bool),
    /// Whether what stands there is left over.
    Probed(String, Option<bool>),
    /// Which file stands there.
    Identified(String, Option<FileId>),
    /// Its file is removed.
    Removed(String, bool),
}

/// What is done in a folder, and whether it was.
#[derive(Drop)]
pub enum InFolder {
    /// An empty file is made at a path.
    Created(String, bool),
    /// A file with these bytes is handed to the system.
    Flushed(Vec<u8>, bool),
    /// A file gets a second path.
    Linked(String, String, bool),
    /// A file is removed.
    Removed(String, bool),
}

/// What is done at a door.
#[derive(Clone, Copy, Debug, PartialEq, Eq)]
pub enum AtDoor {
    /// It is waited for a connection, or for the end of standard input; whether that came first.
    Watched(bool),
    /// A connection is accepted.
    Accepted(bool),
    /// Nothing is done for a while.
    Paused,
    /// A connection is handed to the workers.
    HandedOut(u32, bool),
}

/// What is done on the line to a client. What a call came to: so many bytes, or a failure.
#[derive(Debug, Drop, PartialEq, Eq)]
pub enum OnLine {
    /// It is read.
    Read(Result<usize, ErrorKind>),
    /// Bytes are offered.
    Written(Vec<u8>, Result<usize, ErrorKind>),
    /// The clock is looked at.
    Looked(u64),
}

/// What is looked after and told each second.
#[derive(Clone, Copy)]
pub enum AtPost {
    /// The clock is looked at.
    Looked(u64),
    /// How many lines were left out before a minute.
    LeftOut(u64),
    /// Which handlers have run now for so many seconds.
    Slow(u64, u64),
    /// The connections are counted.
    Clients(Clients),
    /// The handlers that run now are counted.
    Handlers(u64, InRun),
    /// What is in a hall is counted.
    Counted(HallNo, Counts),
    /// The volumes are counted.
    Volumes(u64),
    /// Figures are told.
    Told(Figures),
}

/// What is done in the places of the standard streams.
#[derive(Clone, Copy, Debug, PartialEq, Eq)]
pub enum InPlace {
    /// Whether a stream is closed.
    Looked(Stream, bool),
    /// A file is opened.
    Opened(bool),
}

/// What is done with the volumes of a hall.
#[derive(Clone, Copy, Debug, PartialEq, Eq)]
pub enum OfVolume {
    /// The one before the one with this index is waited for, which has this sum.
    Awaited(u64, Sum),
    /// One is written in its seal, with its head, and has this sum, unless that fails.
    Written(Seal, Head, Option<Sum>),
    /// The one with this index is done with, and the next one has to say this sum.
    Settled(u64, Sum),
}

/// What is done of a run.
#[derive(Debug, Drop)]
pub enum OfRun {
    /// Who runs the program, and what is there.
    Looked(Here),
    /// Whether there is a file.
    Sought(String, bool),
    /// What is asked at a socket first of all, and its reply.
    Greeted(String, Ask, Result<Reply, PeerFault>),
    /// A program is started.
    Started(Command, Result<(), StartFault>),
    /// How it has ended.
    Waited(Option<ExitStatus>),
    /// The connection is closed.
    Closed,
}

/// What is read from a disk.
#[derive(Drop)]
pub struct FromDisk {
    /// The path of a file.
    pub path: String,
    /// Its bytes, or why there are none.
    pub outcome: Result<Vec<u8>, ReadFault>,
}
