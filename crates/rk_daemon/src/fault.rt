//! Why nothing is served.
ghost use Rattle.std.specs.Prelude.{◌≡◌};

use rk_conf::ConfFault;
use std::io;
use thiserror::Error;

/// Why nothing is served, in the order in which it is found. What it is shown as stands first on standard error; the system's reason is said after that.
#[derive(Clone, Copy, Debug, Error)]
pub enum Fault {
    /// The configuration can't be read.
    #[error("conf")]
    Unreadable(io::Error),
    /// The configuration has a fault.
    #[error("conf {0}")]
    Conf(ConfFault),
    /// The system has no random bytes.
    #[error("random")]
    Random(io::Error),
    /// The folder of the record can't be read.
    #[error("record")]
    Record(io::Error),
    /// The folder of the record has a file of an earlier record.
    #[error("record")]
    Recorded,
    /// The library that handlers preload can't be read.
    #[error("keyutils")]
    Keyutils(io::Error),
    /// The socket can't be opened.
    #[error("socket")]
    Socket(io::Error),
    /// Nothing can stand in for a standard stream that is closed.
    #[error("socket")]
    Stream(io::Error),
    /// There was no memory, or no thread could be made.
    #[error("memory")]
    NoMemory,
}
