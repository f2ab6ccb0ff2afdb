//! Why there is no status.

use rk_names::Errno;
use thiserror::Error;

/// Why a program has no status to be told.
#[derive(Clone, Copy, Debug, PartialEq, Eq, Error)]
pub enum RunFault {
    /// No socket is named, nobody answers there, or what was answered is no reply to HELLO.
    #[error("the daemon can't be reached")]
    Socket,
    /// HELLO was refused.
    #[error("the daemon refuses")]
    Refused(Errno),
    /// The library is not there.
    #[error("the library is not there")]
    File,
    /// There is no such program.
    #[error("there is no such program")]
    NotFound,
    /// The program is there, and can't be started.
    #[error("the program can't be started")]
    Unstartable,
    /// The program was started, and the system doesn't tell how it has ended.
    #[error("its end is not known")]
    Unknown,
    /// There was no memory.
    #[error("out of memory")]
    NoMemory,
}
