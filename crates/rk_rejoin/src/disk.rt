//! The disk, as the files of a record are read from it.
ghost use Rattle.std.specs.Prelude.{◌≡◌, List, [], ◌∷◌, Option};
ghost use Rattle.rk_rejoin.specs.Disk.{Reading, and_then, bytes_of};

use thiserror::Error;

/// Why a file was not read.
#[derive(Clone, Copy, Debug, PartialEq, Eq, Error)]
pub enum ReadFault {
    /// It can't be read.
    #[error("it can't be read")]
    Unreadable,
    /// There was no memory for its bytes.
    #[error("memory")]
    NoMemory,
}

/// Who reads files. It may tell which were read and what they had, as a test's does; the system's tells nothing.
pub trait Disk {
    /// What was read, first things first, if it tells that.
    ghost story: { Self → Option (List Reading) };

    /// All bytes of the file at this path, or why there are none.
    fn read(&mut self, path: &str) -> Result<Vec<u8>, ReadFault>
        ensures { story self.new ≡ and_then (story self.old) (record { path = path.now; outcome = bytes_of result } ∷ []) };
}
