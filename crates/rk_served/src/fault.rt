//! Why a happening was not taken in.
use thiserror::Error;

/// Why a happening was not taken in.
#[derive(Clone, Copy, Debug, PartialEq, Eq, Error)]
pub enum TakeFault {
    /// Its client or construction is not at that point. Nothing has changed.
    #[error("the client or handler is not at that point")]
    Unknown,
    /// Memory was refused, in this call or in an earlier one.
    #[error("memory was refused")]
    NoMemory,
}
