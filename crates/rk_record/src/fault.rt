//! Why a hall has done nothing.

use thiserror::Error;

/// Why a hall has done nothing. It is as it was before.
#[derive(Clone, Copy, PartialEq, Eq, Debug, Error)]
pub enum HallFault {
    /// There are not as many free places as are needed: those of a volume, less its steps and the places that are kept for what is owed.
    #[error("the record's volume is full")]
    Full,
    /// An allocation failed.
    #[error("out of memory")]
    NoMemory,
}
