//! Why a script was given up.
use thiserror::Error;

/// Why a script was given up.
#[derive(Clone, Copy, Debug, PartialEq, Eq, Error)]
pub enum ScriptFault {
    /// The script could not be read.
    #[error("the script could not be read")]
    Read,
    /// What came of it could not be written.
    #[error("the output could not be written")]
    Write,
    /// The configuration is refused. The last line that was written says where and why.
    #[error("the configuration is refused")]
    Conf,
    /// Memory was refused.
    #[error("memory was refused")]
    NoMemory,
    /// It was not at its end after 1,048,576 reads.
    #[error("the script is too long")]
    TurnsUsed,
}
