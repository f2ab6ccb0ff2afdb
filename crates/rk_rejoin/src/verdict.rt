//! What is wrong with a record.

use thiserror::Error;

/// What is wrong with a record, hall by hall. A volume is named by its index, from 1, and a step by its number within the volume, from 1.
#[derive(Clone, Copy, Debug, PartialEq, Eq, Error)]
pub enum Verdict {
    /// There is no volume.
    #[error("there is no volume")]
    Nothing,
    /// The volumes are of daemons with other seconds for negative keys.
    #[error("hall {hall}, volume {index}: its --negative is not that of the first volume")]
    OtherNegative { hall: u8, index: u64 },
    /// The volume has not the number of the run that the first one has.
    #[error("hall {hall}, volume {index}: it is of another run than the first volume")]
    OtherRun { hall: u8, index: u64 },
    /// The volume has index 0, and the first one has 1.
    #[error("hall {hall}, volume 0: volumes are counted from 1")]
    Uncounted { hall: u8 },
    /// The volume is there twice.
    #[error("hall {hall}, volume {index}: it is there twice")]
    Twice { hall: u8, index: u64 },
    /// A later volume is there, and this one is not.
    #[error("hall {hall}, volume {index}: it is missing")]
    Missing { hall: u8, index: u64 },
    /// The volumes before it have other steps than it says.
    #[error("hall {hall}, volume {index}: other steps come before it than it says")]
    Apart { hall: u8, index: u64 },
    /// The volume before it has another sum than it says.
    #[error("hall {hall}, volume {index}: the volume before it is another than it says")]
    Unchained { hall: u8, index: u64 },
    /// A volume before it closes the hall's record.
    #[error("hall {hall}, volume {index}: the record was closed before it")]
    Closed { hall: u8, index: u64 },
    /// The machine answers the step otherwise than it is recorded.
    #[error("hall {hall}, volume {index}, step {step}: the machine answers otherwise")]
    Broken { hall: u8, index: u64, step: u64 },
    /// The record of another hall is closed, and of this one the last volumes are not there.
    #[error("hall {hall}: the volume that closes its record is missing")]
    Unclosed { hall: u8 },
    /// There was no memory to judge them.
    #[error("memory")]
    NoMemory,
}
