//! Why volumes are no run.

use thiserror::Error;

/// Why lists of steps that are joined are no run.
#[derive(Clone, Copy, PartialEq, Eq, Debug, Error)]
pub enum Rejoin {
    /// The step of this number, counted from 1 over all lists, is answered otherwise.
    #[error("step {number}: the machine answers otherwise")]
    Broken { number: u64 },
    /// An allocation failed.
    #[error("out of memory")]
    NoMemory,
}
