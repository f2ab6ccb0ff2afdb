//! Why there is no ask, and why there is no reply.
ghost use Rattle.std.specs.Prelude.{◌≡◌};
ghost use Rattle.rk_client.specs.declared.fault.PeerFault.TheVariants.{NoMemory};
ghost use Rattle.rk_client.specs.declared.fault.ArgumentFault.TheVariants.{NoMemory as no_memory};

use rk_message::FieldKind;
use std::alloc::AllocError;
use thiserror::Error;

/// Why arguments are no ask.
#[derive(Clone, Copy, Debug, PartialEq, Eq, Error)]
pub enum ArgumentFault {
    /// The op takes fewer arguments, or more.
    #[error("the number of arguments is wrong")]
    Count,
    /// An argument is none for this field.
    #[error("the argument is not allowed here")]
    Bad(FieldKind),
    /// They are an ask, and there was no memory for it.
    #[error("out of memory")]
    NoMemory,
}

/// Why there is no reply.
#[derive(Clone, Copy, Debug, PartialEq, Eq, Error)]
pub enum PeerFault {
    /// A write or a read failed, or the stream ended before the reply did.
    #[error("the peer is gone")]
    Lost,
    /// What came is no reply.
    #[error("the peer sent no reply")]
    Malformed,
    /// There was no memory for the ask or the reply.
    #[error("out of memory")]
    NoMemory,
}

impl From<AllocError> for PeerFault {
    ghost from_gives = { λ _ e. e ≡ NoMemory };

    fn from(_error: AllocError) -> PeerFault {
        PeerFault::NoMemory
    }
}

impl From<AllocError> for ArgumentFault {
    ghost from_gives = { λ _ e. e ≡ no_memory };

    fn from(_error: AllocError) -> ArgumentFault {
        ArgumentFault::NoMemory
    }
}
