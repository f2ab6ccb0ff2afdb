//! Why a call on keys is refused.
use rk_names::{Errno, KeyError};
use std::alloc::AllocError;
use thiserror::Error;

/// Why a call on keys is refused. What it leaves stands at the call.
#[derive(Clone, Copy, Debug, PartialEq, Eq, Error)]
pub enum KeyFault {
    /// The user has its 200 keys, or the serials are used up (request_key(2), EDQUOT).
    #[error("the quota is used up")]
    Quota,
    /// The key is under construction.
    #[error("the key is under construction")]
    Busy,
    /// The key is revoked, expired or negative.
    #[error("the key can't be used: {}", .0.errno())]
    Own(KeyError),
    /// Memory ran out.
    #[error("out of memory")]
    NoMemory,
}

impl KeyFault {
    ghost use Rattle.std.specs.Prelude.{◌≡◌};
    ghost use Rattle.rk_keys.specs.Faults.{fault_errno};

    /// What it is answered as: EDQUOT, EBUSY, the error of the key, ENOMEM.
    pub fn errno(self) -> Errno
        ensures { result ≡ fault_errno self }
    {
        match self {
            KeyFault::Quota => Errno::Edquot,
            KeyFault::Busy => Errno::Ebusy,
            KeyFault::Own(error) => error.errno(),
            KeyFault::NoMemory => Errno::Enomem,
        }
    }
}

impl From<AllocError> for KeyFault {
    ghost use Rattle.std.specs.Prelude.{◌≡◌};
    ghost use Rattle.rk_keys.specs.declared.fault.KeyFault.TheVariants.{NoMemory};

    ghost from_gives = { λ _ fault. fault ≡ NoMemory };

    fn from(_: AllocError) -> KeyFault {
        KeyFault::NoMemory
    }
}
