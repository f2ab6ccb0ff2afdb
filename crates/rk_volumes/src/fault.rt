//! Why a file is no volume.
ghost use Rattle.std.specs.Prelude.{◌≡◌};
ghost use Rattle.rk_volumes.specs.declared.fault.Unread.TheVariants.{NoMemory as no_memory};

use rk_message::ReadError;
use std::alloc::AllocError;
use thiserror::Error;

/// Why a file is no volume, in the order in which it is found.
#[derive(Clone, Copy, Debug, PartialEq, Eq, Error)]
pub enum Fault {
    /// The sum at its end is not that of the bytes before it.
    #[error("its sum is not that of its bytes, so that it was cut or changed")]
    Sum,
    /// It does not begin with the line that names the format and its version.
    #[error("it does not begin as a volume of this version")]
    Title,
    /// No seal or no head stands after the line: it is cut, or there is no such mark or hall.
    #[error("its head is cut or bad")]
    Head,
    /// The step of this number, from 1 within the volume, is cut or bad.
    #[error("its step {0} is cut or bad")]
    Step(u64),
    /// Bytes are left after the last step.
    #[error("bytes are left behind its last step")]
    Trailing,
    /// There was no memory for it.
    #[error("no memory")]
    NoMemory,
}

/// Why a part of a file was not read.
#[derive(Clone, Copy, Debug, PartialEq, Eq)]
pub(crate) enum Unread {
    /// The bytes are no such part.
    Bad,
    /// There was no memory for it.
    NoMemory,
}

impl From<AllocError> for Unread {
    ghost from_gives = { λ _ e. e ≡ no_memory };

    fn from(_error: AllocError) -> Unread {
        Unread::NoMemory
    }
}

/// A message that spells nothing is a bad part; a lack of memory stays one.
impl From<ReadError> for Unread {
    ghost use Rattle.std.specs.Prelude.{◌≡◌};
    ghost use Rattle.rk_volumes.specs.Reading.{unread_by};

    ghost from_gives = { λ error unread. unread ≡ unread_by error };

    fn from(error: ReadError) -> Unread {
        match error {
            ReadError::NoMemory => Unread::NoMemory,
            ReadError::Fault(_) => Unread::Bad,
        }
    }
}
