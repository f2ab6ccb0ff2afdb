//! Why files are no record.
ghost use Rattle.std.specs.Prelude.{◌≡◌};
ghost use Rattle.rk_rejoin.specs.declared.files_fault.FilesFault.TheVariants.{NoRecord as no_record};

use crate::verdict::Verdict;
use rk_volumes::Fault;
use thiserror::Error;

/// Why files are no record, as it is found: file by file, and then of all volumes.
#[derive(Clone, Copy, Debug, Error)]
pub enum FilesFault<'a> {
    /// The file at this path can't be read.
    #[error("{0}: it can't be read")]
    Unreadable(&'a str),
    /// The file at this path is no volume.
    #[error("{0}: {1}")]
    NoVolume(&'a str, Fault),
    /// Each file is a volume, and together they are no record.
    #[error("{0}")]
    NoRecord(Verdict),
    /// There was no memory for what the files have.
    #[error("memory")]
    NoMemory,
}

/// A verdict is on the volumes of all files.
impl<'a> From<Verdict> for FilesFault<'a> {
    ghost from_gives = { λ verdict fault. fault ≡ no_record verdict };

    fn from(verdict: Verdict) -> FilesFault<'a> {
        FilesFault::NoRecord(verdict)
    }
}
