//! Why a body has no reading.

ghost use Rattle.std.specs.Prelude.{◌≡◌};
ghost use Rattle.rk_message.specs.declared.fault.ReadError.TheVariants.{NoMemory, Fault as the_fault};

use rk_names::Errno;
use std::alloc::{AllocError, AllocFailed};
use thiserror::Error;

/// The leftmost fault of a body.
#[derive(Clone, Copy, Debug, PartialEq, Eq, Error)]
pub enum Fault {
    /// The first byte names no ask or reply.
    #[error("the first byte names no message")]
    UnknownOp,
    /// The body ends before a field does; an empty body ends before its first byte.
    #[error("the body is too short")]
    Short,
    /// Bytes are left after the last field.
    #[error("bytes are left after the last field")]
    Trailing,
    /// A field is there and breaks its rule, which is answered so: EPERM for a type that begins with
    /// a dot (add_key(2), "ERRORS"), else EINVAL.
    #[error("a field is bad: {0}")]
    Bad(Errno),
}

impl Fault {
    ghost use Rattle.rk_message.specs.Faults.{fault_answer};

    /// What the session is answered: the field's own for `Bad`, else EINVAL.
    pub fn errno(self) -> Errno
        ensures { result ≡ fault_answer self }
    {
        match self {
            Fault::UnknownOp | Fault::Short | Fault::Trailing => Errno::Einval,
            Fault::Bad(errno) => errno,
        }
    }
}

/// Why nothing was read.
#[derive(Clone, Copy, Debug, PartialEq, Eq, Error)]
pub enum ReadError {
    /// The body has no reading.
    #[error("{0}")]
    Fault(Fault),
    /// The body has a reading, and there was no memory for it.
    #[error("out of memory")]
    NoMemory,
}

impl ReadError {
    ghost use Rattle.rk_message.specs.Faults.{error_answer};

    /// What the session is answered: the fault's errno, or ENOMEM.
    pub fn errno(self) -> Errno
        ensures { result ≡ error_answer self }
    {
        match self {
            ReadError::Fault(fault) => fault.errno(),
            ReadError::NoMemory => Errno::Enomem,
        }
    }
}

impl From<Fault> for ReadError {
    ghost from_gives = { λ f e. e ≡ the_fault f };

    fn from(fault: Fault) -> ReadError {
        ReadError::Fault(fault)
    }
}

impl From<AllocError> for ReadError {
    ghost from_gives = { λ _ e. e ≡ NoMemory };

    fn from(_error: AllocError) -> ReadError {
        ReadError::NoMemory
    }
}

impl<T: Drop> From<AllocFailed<T>> for ReadError {
    ghost from_gives = { λ _ e. e ≡ NoMemory };

    fn from(_error: AllocFailed<T>) -> ReadError {
        ReadError::NoMemory
    }
}
